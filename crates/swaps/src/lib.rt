// Swaps whose alignment, translation and rights pass: in the Dcache, or in memory behind a drain. Stores or swaps, by their kind.
#![tactic(auto)]

ghost use Rattle.std.specs.Prelude.{◌≡◌, true, false, List, ℕ, ◌<◌, length};
ghost use Rattle.values.specs.Counts.{count_limit};
ghost use Rattle.words.specs.Words.{is_width};
ghost use Rattle.bus.specs.Physical.{physical, aborts};
ghost use Rattle.machine.specs.Lists.{lists, machine_of, stepped_of, Leaves, LeavesBelow};
ghost use Rattle.machine.specs.Machine.{Machine};
ghost use Rattle.reach.specs.Code.{MissReady};
ghost use Rattle.swaps.specs.Swaps as spec;
ghost use Rattle.swaps.specs.Code.{store_or_swap};

use machine::{Outcome, Scalars};
use translation::Place;
use values::Access;

// A swap in line i.
fn swap_hit(lines: &mut [u64], store: &mut [u8], s: Scalars, a: Access, v: u32, i: usize) -> Outcome
    requires { (length lines.old ≡ 512) × (length store.old ≡ 16384) × (i < 512) × (is_width a.width ≡ true)
        × (s.counts.hits < count_limit) }
    ensures { (memory bad words : List ℕ) (bytes : List (List ℕ)) (pointers entries : List ℕ) (size : ℕ)
        → stepped_of (lists memory bad words bytes lines.new pointers store.new) entries size result
        ≡ spec.swap_hit (machine_of (lists memory bad words bytes lines.old pointers store.old) entries s size) a v i }
{
    let read = loads::load_hit(store, s, a, i);
    let old = read.answer;
    let written = stores::store_hit(lines, store, s, a, v, i);
    let after = written.scalars;
    Outcome {
        scalars: after,
        answer: old,
    }
}

// A swap in memory, once the buffer is drained.
fn swap_direct(
    memory: &mut [u8],
    bad: &[u8],
    words: &mut [u64],
    bytes: &mut [[u8; 16]; 8],
    s: Scalars,
    a: Access,
    v: u32,
    p: Place,
) -> Outcome
    requires { MissReady memory.old words.old bytes.old s.used a p × (aborts (physical memory.old bad.now) p.address ≡ false) }
    ensures { LeavesBelow memory.old bad.now words.old bytes.old s memory.new words.new
        bytes.new result
        (λ (m : Machine). spec.swap_direct m a v p) }
{
    let pa = p.address;
    let k = a.kind;
    let drained = machine::drain(memory, bad, words, bytes, s);
    let old = words::load(memory, pa.0 as usize, a.width);
    words::store(memory, pa.0 as usize, a.width, v);
    Outcome {
        scalars: drained,
        answer: translation::load_answer(k, a.width, old),
    }
}

// A swap that misses.
fn swap_miss(
    memory: &mut [u8],
    bad: &[u8],
    words: &mut [u64],
    bytes: &mut [[u8; 16]; 8],
    s: Scalars,
    a: Access,
    v: u32,
    p: Place,
) -> Outcome
    requires { MissReady memory.old words.old bytes.old s.used a p }
    ensures { LeavesBelow memory.old bad.now words.old bytes.old s memory.new words.new
        bytes.new result
        (λ (m : Machine). spec.swap_miss m a v p) }
{
    if bus::aborts(memory, bad, p.address) {
        let address = a.address;
        return reach::faulted(s, translation::other_status(p), p.domain, address);
    }
    swap_direct(memory, bad, words, bytes, s, a, v, p)
}

// A store or a swap, by its kind: the Dcache is searched, even when disabled; a miss allocates no line. It and what it calls are lent the lists one by one:
// what README names asks for no more than it needs, and `machine::Lent` asks for the pointers.
pub fn store_or_swap(
    memory: &mut [u8],
    bad: &[u8],
    words: &mut [u64],
    bytes: &mut [[u8; 16]; 8],
    lines: &mut [u64],
    cached: &mut [u8],
    s: Scalars,
    a: Access,
    v: u32,
    p: Place,
) -> Outcome
    requires { MissReady memory.old words.old bytes.old s.used a p × (length lines.old ≡ 512) × (length cached.old ≡ 16384)
        × (s.counts.hits < count_limit) }
    ensures { (pointers : List ℕ)
        → Leaves (lists memory.old bad.now words.old bytes.old lines.old pointers
        cached.old) s
        (lists memory.new bad.now words.new bytes.new lines.new pointers cached.new) result
        (λ (m : Machine). store_or_swap m a v p) }
{
    let va = translation::cleared(a);
    let k = a.kind;
    let swaps = values::is_swap(k);
    let found = cache::find(lines, va);
    match found {
        Some(i) => {
            if swaps {
                return swap_hit(lines, cached, s, a, v, i);
            }
            stores::store_hit(lines, cached, s, a, v, i)
        },
        None => {
            if swaps {
                return swap_miss(memory, bad, words, bytes, s, a, v, p);
            }
            stores::store_miss(memory, bad, words, bytes, s, a, v, p)
        },
    }
}
