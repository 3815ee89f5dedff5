// Stores whose alignment, translation and rights pass: into the Dcache, the write buffer or memory.
#![tactic(auto)]

ghost use Rattle.std.specs.Prelude.{◌≡◌, true, false, cond, List, ℕ, ◌<◌, length};
ghost use Rattle.values.specs.Counts.{count_limit};
ghost use Rattle.words.specs.Words.{is_width};
ghost use Rattle.bus.specs.Physical.{physical, outside, aborts};
ghost use Rattle.buffer.specs.Buffer.{buffered};
ghost use Rattle.buffer.specs.Packing.{backing_of};
ghost use Rattle.buffer.specs.Ranges.{Left};
ghost use Rattle.machine.specs.Lists.{lists, machine_of, stepped_of, LeavesBelow};
ghost use Rattle.machine.specs.Machine.{Machine};
ghost use Rattle.reach.specs.Code.{MissReady};
ghost use Rattle.machine.specs.Scalars.{outcome_from};
ghost use Rattle.stores.specs.Stores as spec;

use machine::{Outcome, Scalars};
use translation::Place;
use values::{Access, Answer};

// A served store answers 0.
fn stored(s: Scalars) -> Outcome
    ensures { result ≡ outcome_from s (Answer.Value 0) }
{
    Outcome {
        scalars: s,
        answer: Answer::Value(0),
    }
}

// A store into line i.
pub fn store_hit(
    lines: &mut [u64],
    store: &mut [u8],
    s: Scalars,
    a: Access,
    v: u32,
    i: usize,
) -> Outcome
    requires { (length lines.old ≡ 512) × (length store.old ≡ 16384) × (i < 512) × (is_width a.width ≡ true)
        × (s.counts.hits < count_limit) }
    ensures { (memory bad words : List ℕ) (bytes : List (List ℕ)) (pointers entries : List ℕ) (size : ℕ)
        → stepped_of (lists memory bad words bytes lines.new pointers store.new) entries size result
        ≡ spec.store_hit (machine_of (lists memory bad words bytes lines.old pointers store.old) entries s size) a v i }
{
    let va = translation::cleared(a);
    cache::store(lines, store, i, va, a.width, v);
    stored(machine::hit(s))
}

// A store that drains the buffer and goes to memory.
fn store_direct(
    memory: &mut [u8],
    bad: &[u8],
    words: &mut [u64],
    bytes: &mut [[u8; 16]; 8],
    s: Scalars,
    a: Access,
    v: u32,
    p: Place,
) -> Outcome
    requires { MissReady memory.old words.old bytes.old s.used a p × (aborts (physical memory.old bad.now) p.address ≡ false) }
    ensures { LeavesBelow memory.old bad.now words.old bytes.old s memory.new words.new
        bytes.new result
        (λ (m : Machine). spec.store_direct m a v p) }
{
    let pa = p.address;
    let drained = machine::drain(memory, bad, words, bytes, s);
    words::store(memory, pa.0 as usize, a.width, v);
    stored(drained)
}

// The bytes of a store go to the buffer, or are dropped outside memory. It answers the number of entries.
fn buffer_or_drop(
    memory: &mut [u8],
    bad: &[u8],
    words: &mut [u64],
    bytes: &mut [[u8; 16]; 8],
    used: usize,
    a: Access,
    v: u32,
    p: Place,
) -> usize
    requires { MissReady memory.old words.old bytes.old used a p }
    ensures { Left memory.new bad.now words.new bytes.new result
        (cond (outside (physical memory.old bad.now) p.address)
        (backing_of memory.old bad.now words.old bytes.old used)
        (buffered (backing_of memory.old bad.now words.old bytes.old used) p.address a.width v)) }
{
    if bus::outside(memory, p.address) {
        return used;
    }
    joins::store(memory, bad, words, bytes, used, p.address, a.width, v)
}

// A store that is buffered, or dropped outside memory.
fn store_buffered(
    memory: &mut [u8],
    bad: &[u8],
    words: &mut [u64],
    bytes: &mut [[u8; 16]; 8],
    s: Scalars,
    a: Access,
    v: u32,
    p: Place,
) -> Outcome
    requires { MissReady memory.old words.old bytes.old s.used a p }
    ensures { LeavesBelow memory.old bad.now words.old bytes.old s memory.new words.new
        bytes.new result
        (λ (m : Machine). spec.store_buffered m a v p) }
{
    let used = buffer_or_drop(memory, bad, words, bytes, s.used, a, v, p);
    stored(machine::with_used(s, used))
}

// A store that misses. It and what it calls are lent the lists one by one: what README names asks for no more than it needs, and `machine::Lent` asks for
// lines, pointers and store.
pub fn store_miss(
    memory: &mut [u8],
    bad: &[u8],
    words: &mut [u64],
    bytes: &mut [[u8; 16]; 8],
    s: Scalars,
    a: Access,
    v: u32,
    p: Place,
) -> Outcome
    requires { MissReady memory.old words.old bytes.old s.used a p }
    ensures { LeavesBelow memory.old bad.now words.old bytes.old s memory.new words.new
        bytes.new result
        (λ (m : Machine). spec.store_miss m a v p) }
{
    let r = s.cp15.registers;
    if translation::buffers(r, p) {
        return store_buffered(memory, bad, words, bytes, s, a, v, p);
    }
    if bus::aborts(memory, bad, p.address) {
        let address = a.address;
        return reach::faulted(s, translation::other_status(p), p.domain, address);
    }
    store_direct(memory, bad, words, bytes, s, a, v, p)
}
