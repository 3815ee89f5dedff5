// Lines of the Dcache filled: the line at the set's pointer gives way, and a line of memory is read.
#![tactic(auto)]

ghost use Rattle.std.specs.Prelude.{◌≡◌, ◌+◌, ◌*◌, ◌<◌, ◌≤◌, length};
ghost use Rattle.bus.specs.Physical.{physical, line_aborts};
ghost use Rattle.buffer.specs.Buffer.{ready};
ghost use Rattle.buffer.specs.Packing.{backing_of};
ghost use Rattle.buffer.specs.Ranges.{Fits, Left};
ghost use Rattle.cache.specs.Dcache as spec;
ghost use Rattle.cache.specs.Packing.{line_of, side_of, SentIs, SendsLine, FillsLine};

use cleans::Sent;
use values::{Line, PhysicalAddress, VirtualAddress};

// The 32 bytes of a line of memory go to the cache store, half by half.
fn read_line(store: &mut [u8], at: usize, memory: &[u8], from: usize)
    requires { (at + 32 ≤ length store.old) × (from + 32 ≤ length memory.now) }
    ensures { store.new ≡ spec.copied store.old at memory.now from 32 }
{
    let low = cleans::half_at(memory, from);
    let high = cleans::half_at(memory, from + 16);
    store[at..at + 16].copy_from_slice(&low);
    store[at + 16..at + 32].copy_from_slice(&high);
}

// The word of a valid clean line.
fn line_word(tag: u32, frame: u32) -> u64
    requires { frame < 0x20000000 }
    ensures { line_of result ≡ spec.fresh_line tag frame }
{
    (tag as u64) * 0x100000000 + (frame as u64) * 8 + 1
}

// A line's dirty halves go to the buffer, and the buffer is drained if an entry masks a byte of the frame to be read. It answers the number of entries.
fn send_out(
    memory: &mut [u8],
    bad: &[u8],
    words: &mut [u64],
    bytes: &mut [[u8; 16]; 8],
    used: usize,
    l: Line,
    store: &[u8],
    at: usize,
    frame: u32,
) -> usize
    requires { Fits memory.old words.old bytes.old used × SendsLine memory.old l × (at + 32 ≤ length store.now) }
    ensures { Left memory.new bad.now words.new bytes.new result
        (ready
        (spec.halves_sent (backing_of memory.old bad.now words.old bytes.old used) l store.now at)
        (frame * 32) 32) }
{
    let n = cleans::send_halves(memory, bad, words, bytes, used, l, store, at);
    masks::ready_line(memory, bad, words, bytes, n, frame)
}

// The line at the set's pointer gives way: its dirty halves go out, its place is empty, the pointer steps.
fn give_way(
    memory: &mut [u8],
    bad: &[u8],
    words: &mut [u64],
    bytes: &mut [[u8; 16]; 8],
    used: usize,
    lines: &mut [u64],
    pointers: &mut [u32],
    store: &[u8],
    va: VirtualAddress,
    pa: PhysicalAddress,
) -> Sent
    requires { Fits memory.old words.old bytes.old used × FillsLine memory.old lines.old pointers.old store.now va }
    ensures { SentIs memory.new bad.now words.new bytes.new result.used lines.new pointers.new
        store.now result.halves
        (spec.gave_way
        (side_of memory.old bad.now words.old bytes.old used lines.old pointers.old
        store.now)
        va pa) }
{
    let s = (va.0 / 32 % 16) as usize;
    let p = pointers[s];
    let i = s * 32 + p as usize;
    let l = cache::line_of(lines[i]);
    let n = send_out(memory, bad, words, bytes, used, l, store, i * 32, pa.0 / 32);
    pointers[s] = (p + 1) % 32;
    lines[i] = 0;
    Sent {
        used: n,
        halves: cleans::dirty_halves(l),
    }
}

// A load's miss fills a line: the one at the set's pointer gives way, and the line is read into its place, or the place stays empty where a word aborts.
pub fn fill(
    memory: &mut [u8],
    bad: &[u8],
    words: &mut [u64],
    bytes: &mut [[u8; 16]; 8],
    used: usize,
    lines: &mut [u64],
    pointers: &mut [u32],
    store: &mut [u8],
    va: VirtualAddress,
    pa: PhysicalAddress,
    aborts: bool,
) -> Sent
    requires { Fits memory.old words.old bytes.old used × FillsLine memory.old lines.old pointers.old store.old va
        × (aborts ≡ line_aborts (physical memory.old bad.now) pa) }
    ensures { SentIs memory.new bad.now words.new bytes.new result.used lines.new pointers.new
        store.new result.halves
        (spec.filled
        (side_of memory.old bad.now words.old bytes.old used lines.old pointers.old
        store.old)
        va pa) }
{
    let s = (va.0 / 32 % 16) as usize;
    let i = s * 32 + pointers[s] as usize;
    let sent = give_way(
        memory, bad, words, bytes, used, lines, pointers, store, va, pa,
    );
    if aborts {
        return sent;
    }
    let frame = pa.0 / 32;
    lines[i] = line_word(va.0 / 512, frame);
    read_line(store, i * 32, memory, (frame * 32) as usize);
    sent
}
