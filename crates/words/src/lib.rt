// Little-endian numbers of 1, 2 and 4 bytes in a lent slice, and their signed meaning.
#![tactic(auto)]

ghost use Rattle.std.specs.Prelude.{◌≡◌, true, ◌<◌, ◌+◌, ◌≤◌, ◌^◌, length};
ghost use Rattle.words.specs.Words.{stored, is_width, fits_width, Loaded};
ghost use Rattle.words.specs.Signed.{signed_of};

// Whether a width is 1, 2 or 4 bytes.
pub fn is_width(width: u32) -> bool
    ensures { result ≡ is_width width }
{
    width == 1 || width == 2 || width == 4
}

// Whether a value fits a width of 1, 2 or 4 bytes.
pub fn fits_width(width: u32, value: u32) -> bool
    requires { is_width width ≡ true }
    ensures { result ≡ fits_width width value }
{
    match width {
        4 => true,
        2 => value < 0x10000,
        _ => value < 256,
    }
}

// The number of N bytes, at most four. N is a constant, so that the bytes are loaded at once.
fn get<const N: usize>(bytes: &[u8], at: usize) -> u32
    requires { (N ≤ 4) × (at + N ≤ length bytes.now) }
    ensures { Loaded N bytes.now at result }
{
    let mut number = [0u8; 4];
    number[..N].copy_from_slice(&bytes[at..at + N]);
    u32::from_le_bytes(number)
}

// A word.
pub fn word(bytes: &[u8], at: usize) -> u32
    requires { at + 4 ≤ length bytes.now }
    ensures { Loaded 4 bytes.now at result }
{
    get::<4>(bytes, at)
}

// A number of 1, 2 or 4 bytes.
pub fn load(bytes: &[u8], at: usize, width: u32) -> u32
    requires { (is_width width ≡ true) × (at + width ≤ length bytes.now) }
    ensures { Loaded width bytes.now at result }
{
    match width {
        4 => word(bytes, at),
        2 => get::<2>(bytes, at),
        _ => get::<1>(bytes, at),
    }
}

// The low N bytes of a number take their place.
fn put<const N: usize>(bytes: &mut [u8], at: usize, value: u32)
    requires { (N ≤ 4) × (at + N ≤ length bytes.old) }
    ensures { bytes.new ≡ stored N bytes.old at value }
{
    bytes[at..at + N].copy_from_slice(&value.to_le_bytes()[..N]);
}

// A number of 1, 2 or 4 bytes takes its place.
pub fn store(bytes: &mut [u8], at: usize, width: u32, value: u32)
    requires { (is_width width ≡ true) × (at + width ≤ length bytes.old) }
    ensures { bytes.new ≡ stored width bytes.old at value }
{
    match width {
        4 => put::<4>(bytes, at, value),
        2 => put::<2>(bytes, at, value),
        _ => put::<1>(bytes, at, value),
    }
}

// A number of 1, 2 or 4 bytes as a signed number.
pub fn signed(width: u32, value: u32) -> i32
    requires { (is_width width ≡ true) × (value < 256 ^ width) }
    ensures { result ≡ signed_of width value }
{
    match width {
        4 => value.cast_signed(),
        2 => (value as u16).cast_signed() as i32,
        _ => (value as u8).cast_signed() as i32,
    }
}
