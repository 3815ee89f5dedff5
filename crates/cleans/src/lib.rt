// Lines of the Dcache sent to the write buffer, by their dirty halves, and cleaned.
#![tactic(auto)]

ghost use Rattle.std.specs.Prelude.{◌≡◌, true, List, ℕ, ◌+◌, ◌*◌, ◌≤◌, length, take, drop};
ghost use Rattle.buffer.specs.Packing.{backing_of};
ghost use Rattle.buffer.specs.Ranges.{Fits, Left};
ghost use Rattle.cache.specs.Dcache as spec;
ghost use Rattle.cache.specs.Packing.{line_of, side_of, SentIs, SendsLine, HoldsLine};

use values::{Count, Line};

// Sixteen bytes of the cache store.
pub fn half_at(store: &[u8], at: usize) -> [u8; 16]
    requires { at + 16 ≤ length store.now }
    ensures { result ≡ take 16 (drop at store.now) }
{
    let mut out = [0; 16];
    out.copy_from_slice(&store[at..at + 16]);
    out
}

// A half line, if it is dirty, goes to the buffer. It answers the number of entries.
fn send_half(
    memory: &mut [u8],
    bad: &[u8],
    words: &mut [u64],
    bytes: &mut [[u8; 16]],
    used: usize,
    dirty: bool,
    block: u32,
    store: &[u8],
    at: usize,
) -> usize
    requires { Fits memory.old words.old bytes.old used × (dirty ≡ true → block * 16 + 16 ≤ length memory.old)
        × (at + 16 ≤ length store.now) }
    ensures { Left memory.new bad.now words.new bytes.new result
        (spec.half_sent dirty (backing_of memory.old bad.now words.old bytes.old used) block
        store.now at) }
{
    if dirty {
        let half = half_at(store, at);
        return buffer::push_half(memory, bad, words, bytes, used, block, half);
    }
    used
}

// A line's dirty halves go to the buffer, low half first. It answers the number of entries.
pub fn send_halves(
    memory: &mut [u8],
    bad: &[u8],
    words: &mut [u64],
    bytes: &mut [[u8; 16]],
    used: usize,
    l: Line,
    store: &[u8],
    at: usize,
) -> usize
    requires { Fits memory.old words.old bytes.old used × SendsLine memory.old l
        × (at + 32 ≤ length store.now) }
    ensures { Left memory.new bad.now words.new bytes.new result
        (spec.halves_sent (backing_of memory.old bad.now words.old bytes.old used) l store.now at) }
{
    let n = send_half(
        memory,
        bad,
        words,
        bytes,
        used,
        l.low,
        l.frame * 2,
        store,
        at,
    );
    send_half(
        memory,
        bad,
        words,
        bytes,
        n,
        l.high,
        l.frame * 2 + 1,
        store,
        at + 16,
    )
}

// A word without its dirty bits.
fn cleaned_word(w: u64) -> u64
    ensures { line_of result ≡ spec.clean_line (line_of w) }
{
    w / 8 * 8 + w % 2
}

// How many entries the buffer then has, and how many halves were sent out.
#[derive(Clone, Copy)]
pub struct Sent {
    pub used: usize,
    pub halves: Count,
}

// How many halves of a line are dirty.
pub fn dirty_halves(l: Line) -> Count
    ensures { result ≡ spec.dirty_halves l }
{
    values::bit_number(l.low) + values::bit_number(l.high)
}

// Line i sends its dirty halves to the buffer and stays valid.
pub fn clean_line(
    memory: &mut [u8],
    bad: &[u8],
    words: &mut [u64],
    bytes: &mut [[u8; 16]],
    used: usize,
    lines: &mut [u64],
    store: &[u8],
    i: usize,
) -> Sent
    requires { Fits memory.old words.old bytes.old used × HoldsLine memory.old lines.old store.now i }
    ensures { (pointers : List ℕ)
        → SentIs memory.new bad.now words.new bytes.new result.used lines.new pointers
        store.now result.halves
        (spec.cleaned_at (side_of memory.old bad.now words.old bytes.old used lines.old pointers
        store.now)
        (Some i)) }
{
    let w = lines[i];
    let l = cache::line_of(w);
    let n = send_halves(memory, bad, words, bytes, used, l, store, i * 32);
    lines[i] = cleaned_word(w);
    Sent {
        used: n,
        halves: dirty_halves(l),
    }
}
