// The rights of an access, out of a constant table, and the domain values of register 3.
#![tactic(auto)]

ghost use Rattle.std.specs.Prelude.{◌≡◌, ◌<◌};
ghost use Rattle.values.specs.Bits.{bit};
ghost use Rattle.rights.specs.Rights.{rights, rights_at, rights_table, domain_value};

// Index: domain value × 64 + AP × 16 + S × 8 + R × 4 + privileged × 2 + store. 0 allowed, 1 domain fault, 2 permission fault: bytes, since document 01
// names the form, "const array of 256 bytes".
const RIGHTS: [u8; 256] = [
    1, 1, 1, 1, 1, 1, 1, 1, 1, 1, 1, 1, 1, 1, 1, 1, // domain value 0, AP 0
    1, 1, 1, 1, 1, 1, 1, 1, 1, 1, 1, 1, 1, 1, 1, 1, // domain value 0, AP 1
    1, 1, 1, 1, 1, 1, 1, 1, 1, 1, 1, 1, 1, 1, 1, 1, // domain value 0, AP 2
    1, 1, 1, 1, 1, 1, 1, 1, 1, 1, 1, 1, 1, 1, 1, 1, // domain value 0, AP 3
    2, 2, 2, 2, 0, 2, 0, 2, 2, 2, 0, 2, 2, 2, 2, 2, // domain value 1, AP 0
    2, 2, 0, 0, 2, 2, 0, 0, 2, 2, 0, 0, 2, 2, 0, 0, // domain value 1, AP 1
    0, 2, 0, 0, 0, 2, 0, 0, 0, 2, 0, 0, 0, 2, 0, 0, // domain value 1, AP 2
    0, 0, 0, 0, 0, 0, 0, 0, 0, 0, 0, 0, 0, 0, 0, 0, // domain value 1, AP 3
    1, 1, 1, 1, 1, 1, 1, 1, 1, 1, 1, 1, 1, 1, 1, 1, // domain value 2, AP 0
    1, 1, 1, 1, 1, 1, 1, 1, 1, 1, 1, 1, 1, 1, 1, 1, // domain value 2, AP 1
    1, 1, 1, 1, 1, 1, 1, 1, 1, 1, 1, 1, 1, 1, 1, 1, // domain value 2, AP 2
    1, 1, 1, 1, 1, 1, 1, 1, 1, 1, 1, 1, 1, 1, 1, 1, // domain value 2, AP 3
    0, 0, 0, 0, 0, 0, 0, 0, 0, 0, 0, 0, 0, 0, 0, 0, // domain value 3, AP 0
    0, 0, 0, 0, 0, 0, 0, 0, 0, 0, 0, 0, 0, 0, 0, 0, // domain value 3, AP 1
    0, 0, 0, 0, 0, 0, 0, 0, 0, 0, 0, 0, 0, 0, 0, 0, // domain value 3, AP 2
    0, 0, 0, 0, 0, 0, 0, 0, 0, 0, 0, 0, 0, 0, 0, 0, // domain value 3, AP 3
];

// The table, to be lent to `right` for many accesses.
pub fn table() -> [u8; 256]
    ensures { result ≡ rights_table }
{
    RIGHTS
}

// The table's entry at an index.
pub fn entry(index: u32) -> u8
    requires { index < 256 }
    ensures { result ≡ rights_at index }
{
    RIGHTS[index as usize]
}

// The entry for an access by its domain value, its AP, the control register's S and R, its mode and its kind.
pub fn right(
    table: &[u8; 256],
    value: u32,
    ap: u32,
    control: u32,
    privileged: bool,
    store: bool,
) -> u8
    requires { (table.now ≡ rights_table) × (value < 4) × (ap < 4) }
    ensures { result ≡ rights value ap (bit control 8) (bit control 9) privileged store }
{
    let s = control / 0x100 % 2;
    let r = control / 0x200 % 2;
    let p = values::bit_number(privileged);
    let w = values::bit_number(store);
    let i = value * 64 + ap * 16 + s * 8 + r * 4 + p * 2 + w;
    table[i as usize]
}

// The domain value of a domain. Its pair's place in register 3 is twice the domain number.
pub fn domain_value(domains: u32, domain: u32) -> u32
    requires { domain < 16 }
    ensures { (result ≡ domain_value domains domain) × (result < 4) }
{
    (domains >> (2 * domain)) % 4
}
