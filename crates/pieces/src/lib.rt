// Bytes of a text and of what is printed: searched, copied, put behind others.
#![tactic(auto)]

ghost use Rattle.std.specs.Prelude.{◌≡◌, ◌++◌, ◌+◌, ◌-◌, ◌≤◌, length, take, drop, position};
ghost use Rattle.values.specs.Lists.{any};
ghost use Rattle.pieces.specs.Pieces as spec;

// Whether a line feed stands in the first n bytes.
pub fn has_feed(bytes: &[u8], n: usize) -> bool
    requires { n ≤ length bytes.now }
    ensures { result ≡ any spec.is_feed (take n bytes.now) }
{
    bytes[..n].contains(&b'\n')
}

// The bytes of a list from a place up to another, in a list of 64.
pub fn padded(bytes: &[u8], from: usize, end: usize) -> [u8; 64]
    requires { (from ≤ end) × (end ≤ length bytes.now) × (end ≤ from + 64) }
    ensures { result ≡ spec.padded (take (end - from) (drop from bytes.now)) }
{
    let mut out = [0u8; 64];
    out[..end - from].copy_from_slice(&bytes[from..end]);
    out
}

// Copies the first n bytes of a list to the front of another.
pub fn copy(bytes: &[u8], n: usize, out: &mut [u8])
    requires { (n ≤ length bytes.now) × (n ≤ length out.old) }
    ensures { out.new ≡ take n bytes.now ++ drop n out.old }
{
    out[..n].copy_from_slice(&bytes[..n]);
}

// Where the first line feed stands.
fn first_feed(bytes: &[u8]) -> Option<usize>
    ensures { result ≡ position spec.is_feed bytes.now }
{
    bytes.iter().position(|b| *b == b'\n')
}

// Puts the bytes of a text, through its first line feed, behind a line begun, up to 64 bytes: how many.
pub fn join(line: &mut [u8], held: usize, text: &[u8]) -> usize
    requires { (length line.old ≡ 64) × (held ≤ 63) }
    ensures { (take (held + result) line.new ≡ take held line.old ++ spec.onto (64 - held) text.now)
        × (result ≡ length (spec.onto (64 - held) text.now)) × (held + result ≤ 64) × (result ≤ length text.now) }
{
    let most = text.len().min(64 - held);
    let size = match first_feed(&text[..most]) {
        Some(i) => i + 1,
        None => most,
    };
    line[held..held + size].copy_from_slice(&text[..size]);
    size
}
