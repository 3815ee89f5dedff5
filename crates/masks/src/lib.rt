// Whether the write buffer masks bytes that are to be read from memory; it is drained then.
#![tactic(auto)]

ghost use Rattle.std.specs.Prelude.{◌≡◌, true, Bool, List, ℕ, ◌+◌, ◌*◌, ◌%◌, ◌≤◌};
ghost use Rattle.words.specs.Words.{is_width};
ghost use Rattle.buffer.specs.Buffer as spec;
ghost use Rattle.buffer.specs.Packing.{slot_of, backing_of};
ghost use Rattle.buffer.specs.Ranges.{Fits, Left};

use values::PhysicalAddress;

// Whether an entry masks a byte of an access.
fn meets_access(w: u64, pa: PhysicalAddress, width: u32) -> bool
    requires { (is_width width ≡ true) × (pa.0 % 16 + width ≤ 16) }
    ensures { (b : List ℕ) → result ≡ spec.meets width pa.0 (slot_of w b) }
{
    w / 0x100000000 == (pa.0 / 16) as u64 && (w % 0x100000000 >> (pa.0 % 16)) % (1 << width) != 0
}

// Whether an entry masks a byte of a line. A line has two blocks, so its test is not that of an access with another width.
fn meets_line(w: u64, frame: u32) -> bool
    ensures { (b : List ℕ) → result ≡ spec.meets 32 (frame * 32) (slot_of w b) }
{
    w / 0x200000000 == frame as u64 && w % 0x10000 != 0
}

// Before bytes are read, the buffer is drained if an entry masks one of them, which a test of its word says. It answers the number of entries.
fn ready<F: Fn(u64) -> bool>(
    memory: &mut [u8],
    bad: &[u8],
    words: &mut [u64],
    bytes: &mut [[u8; 16]; 8],
    used: usize,
    meets: F,
) -> usize
    requires fits { Fits memory.old words.old bytes.old used }
    requires callable { F.IsAlwaysCallable meets }
    ensures { (a n : ℕ) → ((w : ℕ) (r : Bool) (b : List ℕ) → F.post meets w r → r ≡ spec.meets n a (slot_of w b))
        → Left memory.new bad.now words.new bytes.new result (spec.ready (backing_of memory.old bad.now words.old bytes.old used) a n) }
{
    if words[..used].iter().any(|w| meets(*w)) {
        let b = *bytes;
        *bytes = buffer::drain(memory, bad, words, b, used);
        return 0;
    }
    used
}

// Before a line is read, the buffer is drained if an entry masks a byte of it. It answers the number of entries.
pub fn ready_line(
    memory: &mut [u8],
    bad: &[u8],
    words: &mut [u64],
    bytes: &mut [[u8; 16]; 8],
    used: usize,
    frame: u32,
) -> usize
    requires { Fits memory.old words.old bytes.old used }
    ensures { Left memory.new bad.now words.new bytes.new result
        (spec.ready (backing_of memory.old bad.now words.old bytes.old used) (frame * 32) 32) }
{
    ready(memory, bad, words, bytes, used, |w| meets_line(w, frame))
}

// Before an access is read from memory, the buffer is drained if an entry masks a byte of it. It answers the number of entries.
pub fn ready_access(
    memory: &mut [u8],
    bad: &[u8],
    words: &mut [u64],
    bytes: &mut [[u8; 16]; 8],
    used: usize,
    pa: PhysicalAddress,
    width: u32,
) -> usize
    requires { Fits memory.old words.old bytes.old used × (is_width width ≡ true) × (pa.0 % 16 + width ≤ 16) }
    ensures { Left memory.new bad.now words.new bytes.new result
        (spec.ready (backing_of memory.old bad.now words.old bytes.old used) pa.0 width) }
{
    ready(
        memory,
        bad,
        words,
        bytes,
        used,
        |w| meets_access(w, pa, width),
    )
}
