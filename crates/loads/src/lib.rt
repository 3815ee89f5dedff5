// Loads whose alignment, translation and rights pass: from the Dcache, by a fill, or from memory.
#![tactic(auto)]

ghost use Rattle.std.specs.Prelude.{◌≡◌, true, false, List, ℕ, ◌<◌, ◌≤◌, ◌+◌, length};
ghost use Rattle.values.specs.Counts.{count_limit};
ghost use Rattle.words.specs.Words.{is_width};
ghost use Rattle.bus.specs.Physical.{physical, aborts, wanted_aborts, line_aborts};
ghost use Rattle.translation.specs.Alignment as aligned;
ghost use Rattle.translation.specs.Ranges.{PlaceRanged};
ghost use Rattle.machine.specs.Lists.{Lists, machine_of, stepped_of, Leaves, lists_of, Kept};
ghost use Rattle.machine.specs.Machine.{Machine};
ghost use Rattle.reach.specs.Code.{MissReady};
ghost use Rattle.machine.specs.Ready.{SideReady};
ghost use Rattle.loads.specs.Loads as spec;
ghost use Rattle.loads.specs.Code.{filled_by};

use machine::{Lent, Outcome, Scalars};
use translation::Place;
use values::{Access, Count, PhysicalAddress};

// A load from line i.
pub fn load_hit(store: &[u8], s: Scalars, a: Access, i: usize) -> Outcome
    requires { (length store.now ≡ 16384) × (i < 512) × (is_width a.width ≡ true) × (s.counts.hits < count_limit) }
    ensures { (l : Lists) (entries : List ℕ) (size : ℕ) → l.store ≡ store.now
        → stepped_of l entries size result ≡ spec.load_hit (machine_of l entries s size) a i }
{
    let va = translation::cleared(a);
    let k = a.kind;
    let v = cache::load(store, i, va, a.width);
    Outcome {
        scalars: machine::hit(s),
        answer: translation::load_answer(k, a.width, v),
    }
}

// So many halves sent out, so many buffer entries, and another fill but where a word of the line aborts.
fn after_fill(s: Scalars, used: usize, halves: Count, aborts: bool) -> Scalars
    requires { (s.counts.fills < count_limit) × (s.counts.halves + halves ≤ count_limit) }
    ensures { result ≡ filled_by s used halves aborts }
{
    let sent = machine::with_used(machine::sent(s, halves), used);
    if aborts {
        return sent;
    }
    machine::filled(sent)
}

// Whether the wanted word or one before it in its line aborts. `aborts` says whether any word of the line does.
fn wanted(memory: &[u8], bad: &[u8], pa: PhysicalAddress, aborts: bool) -> bool
    requires { aborts ≡ line_aborts (physical memory.now bad.now) pa }
    ensures { result ≡ wanted_aborts (physical memory.now bad.now) pa }
{
    if aborts {
        return bus::wanted_aborts(memory, bad, pa);
    }
    false
}

// A load that fills a line: it is served by the word read, or faults.
fn load_fill(side: &mut Lent, s: Scalars, a: Access, p: Place) -> Outcome
    requires { SideReady (lists_of side.old) s × (is_width a.width ≡ true) × PlaceRanged (aligned.cleared a) p }
    ensures { Leaves (lists_of side.old) s (lists_of side.new) result (λ (m : Machine). spec.load_fill m a p) × Kept side.old side.new }
{
    let va = translation::cleared(a);
    let pa = p.address;
    let k = a.kind;
    let address = a.address;
    let bad = side.bad;
    let before = &mut *side.memory;
    let aborts = bus::line_aborts(before, bad, pa);
    let faults = wanted(before, bad, pa, aborts);
    let sent = fills::fill(
        side.memory,
        bad,
        side.words,
        side.bytes,
        s.used,
        side.lines,
        side.pointers,
        side.store,
        va,
        pa,
        aborts,
    );
    let after = after_fill(s, sent.used, sent.halves, aborts);
    if faults {
        return reach::faulted(after, translation::fill_status(p), p.domain, address);
    }
    let left = &mut *side.memory;
    let v = words::load(left, pa.0 as usize, a.width);
    Outcome {
        scalars: after,
        answer: translation::load_answer(k, a.width, v),
    }
}

// A load from memory, once the buffer holds no byte of it.
fn load_uncached(side: &mut Lent, s: Scalars, a: Access, p: Place) -> Outcome
    requires { MissReady side.old.memory.now side.old.words.now side.old.bytes.now s.used a p
        × (aborts (physical side.old.memory.now side.old.bad.now) p.address ≡ false) }
    ensures { Leaves (lists_of side.old) s (lists_of side.new) result (λ (m : Machine). spec.load_uncached m a p) × Kept side.old side.new }
{
    let pa = p.address;
    let k = a.kind;
    let used = masks::ready_access(
        side.memory,
        side.bad,
        side.words,
        side.bytes,
        s.used,
        pa,
        a.width,
    );
    let left = &mut *side.memory;
    let v = words::load(left, pa.0 as usize, a.width);
    Outcome {
        scalars: machine::with_used(s, used),
        answer: translation::load_answer(k, a.width, v),
    }
}

// A load that misses.
fn load_miss(side: &mut Lent, s: Scalars, a: Access, p: Place) -> Outcome
    requires { SideReady (lists_of side.old) s × (is_width a.width ≡ true) × PlaceRanged (aligned.cleared a) p }
    ensures { Leaves (lists_of side.old) s (lists_of side.new) result (λ (m : Machine). spec.load_miss m a p) × Kept side.old side.new }
{
    let r = s.cp15.registers;
    if translation::fills(r, p) {
        return load_fill(side, s, a, p);
    }
    let bad = side.bad;
    let memory = &mut *side.memory;
    if bus::aborts(memory, bad, p.address) {
        let address = a.address;
        return reach::faulted(s, translation::other_status(p), p.domain, address);
    }
    load_uncached(side, s, a, p)
}

// A load: the Dcache is searched, even when disabled.
pub fn load(side: &mut Lent, s: Scalars, a: Access, p: Place) -> Outcome
    requires { SideReady (lists_of side.old) s × (is_width a.width ≡ true) × PlaceRanged (aligned.cleared a) p }
    ensures { Leaves (lists_of side.old) s (lists_of side.new) result (λ (m : Machine). spec.load m a p) × Kept side.old side.new }
{
    let va = translation::cleared(a);
    let lines = &mut *side.lines;
    let found = cache::find(lines, va);
    match found {
        Some(i) => {
            let store = &mut *side.store;
            load_hit(store, s, a, i)
        },
        None => load_miss(side, s, a, p),
    }
}
