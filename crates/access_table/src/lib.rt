// The access table: the 256 entries of the rights table worked out from the domain values and 001's table 2-3, and its lines of text.
#![tactic(auto)]

ghost use Rattle.std.specs.Prelude.{◌≡◌, Bool, ◌+◌, ◌≤◌, ◌<◌, length};
ghost use Rattle.printed.specs.Code.{Laid};
ghost use Rattle.rights.specs.Rights.{at_index};
ghost use Rattle.access_table.specs.Permissions as rows;
ghost use Rattle.access_table.specs.AccessTable.{access_entry, access_table};
ghost use Rattle.access_table.specs.Lines as spec;

// What a column of table 2-3 says of a mode.
#[derive(Clone, Copy)]
pub enum Permission {
    NoAccess,
    ReadOnly,
    ReadWrite,
    Unpredictable,
}

// The entries. Bytes by document 01, "const array of 256 bytes": an enum would be turned into them at each entry.
const ALLOWED: u8 = 0;

const DOMAIN_FAULT: u8 = 1;

const PERMISSION_FAULT: u8 = 2;

// The columns Supervisor_Mode and User_Mode of table 2-3, by AP, S and R.
#[tactic(auto, unfolding(crate::specs::Permissions::rows, crate::specs::Permissions::rows_for, crate::specs::Permissions::permitted))]
fn columns(ap: u32, s: bool, r: bool) -> (Permission, Permission)
    requires { ap < 4 }
    ensures { (privileged : Bool) → rows.mode_of privileged result.0 result.1 ≡ rows.permitted ap s r privileged }
{
    match (ap, s, r) {
        (0, false, false) => (Permission::NoAccess, Permission::NoAccess),
        (0, true, false) => (Permission::ReadOnly, Permission::NoAccess),
        (0, false, true) => (Permission::ReadOnly, Permission::ReadOnly),
        (0, true, true) => (Permission::Unpredictable, Permission::Unpredictable),
        (1, _, _) => (Permission::ReadWrite, Permission::NoAccess),
        (2, _, _) => (Permission::ReadWrite, Permission::ReadOnly),
        _ => (Permission::ReadWrite, Permission::ReadWrite),
    }
}

// What table 2-3 permits a mode, by AP, S and R.
fn permitted(ap: u32, s: bool, r: bool, privileged: bool) -> Permission
    requires { ap < 4 }
    ensures { result ≡ rows.permitted ap s r privileged }
{
    let (supervisor, user) = columns(ap, s, r);
    if privileged { supervisor } else { user }
}

// Whether a load, or a store, is permitted.
fn allows(permission: Permission, store: bool) -> bool
    ensures { result ≡ rows.allows permission store }
{
    match permission {
        Permission::NoAccess => false,
        Permission::ReadOnly => !store,
        Permission::ReadWrite => true,
        Permission::Unpredictable => false,
    }
}

// The entry of an access by its domain value, its AP, S and R, its mode and its kind.
#[tactic(auto, unfolding(crate::specs::AccessTable::access_entry))]
fn entry(value: u32, ap: u32, s: bool, r: bool, privileged: bool, store: bool) -> u8
    requires { (value < 4) × (ap < 4) }
    ensures { result ≡ access_entry value ap s r privileged store }
{
    match value {
        0 => DOMAIN_FAULT,
        2 => DOMAIN_FAULT, // reserved, by table 2-4
        3 => ALLOWED,
        _ if allows(permitted(ap, s, r, privileged), store) => ALLOWED,
        _ => PERMISSION_FAULT,
    }
}

// The entry at an index: domain value × 64 + AP × 16 + S × 8 + R × 4 + privileged × 2 + store.
fn entry_at(index: u32) -> u8
    requires { index < 256 }
    ensures { result ≡ at_index access_entry index }
{
    let s = index / 8 % 2 == 1;
    let r = index / 4 % 2 == 1;
    let privileged = index / 2 % 2 == 1;
    let store = index % 2 == 1;
    entry(index / 64, index / 16 % 4, s, r, privileged, store)
}

// Fills a lent array with the 256 entries, whatever it held.
pub fn work_out(table: &mut [u8; 256])
    ensures { table.new ≡ access_table }
{
    for i in 0..256 {
        table[i as usize] = entry_at(i);
    }
}

// The line of an entry, index and entry, laid from a place on; the place behind it.
fn put_entry(out: &mut [u8], at: usize, index: u64, entry: u8) -> usize
    requires { (index < 1000) × (at + 8 ≤ length out.old) }
    ensures { Laid out.old out.new at result 8 (spec.entry_line index entry) }
{
    let a = printed::put_number(out, at, index);
    let b = printed::put_byte(out, a, b',');
    let c = printed::put_number(out, b, entry as u64);
    printed::put_byte(out, c, b'\n')
}

// The lines of a table's entries, laid at the front of a list; how many bytes they have.
fn put_entries(out: &mut [u8], table: &[u8]) -> usize
    requires { (length table.now ≡ 256) × (2048 ≤ length out.old) }
    ensures { Laid out.old out.new 0 result 2048 (spec.entry_lines 0 table.now) }
{
    let mut at: usize = 0;
    for (i, entry) in table.iter().enumerate() {
        at = put_entry(out, at, i as u64, *entry);
    }
    at
}

// The table worked out, as text, laid at the front of a list; how many bytes it has.
pub fn put_table(out: &mut [u8]) -> usize
    requires { 2048 ≤ length out.old }
    ensures { Laid out.old out.new 0 result 2048 spec.table_text }
{
    let mut table = [0u8; 256];
    work_out(&mut table);
    put_entries(out, &table)
}
