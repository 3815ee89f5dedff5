// The plain machine: no TLB, no Dcache, no write buffer.
#![tactic(auto)]

ghost use Rattle.std.specs.Prelude.{◌≡◌, true, not, ◌∷◌, List, ℕ, ◌<◌, length, OnOk};
ghost use Rattle.rights.specs.Rights.{rights_table};
ghost use Rattle.words.specs.Words.{is_width, value_at};
ghost use Rattle.words.specs.Signed.{load_answer};
ghost use Rattle.translation.specs.Ranges.{CheckedIs};
ghost use Rattle.translation.specs.Alignment as aligned;
ghost use Rattle.values.specs.Counts.{count_limit};
ghost use Rattle.refusals.specs.Numbers.{refusal_code};
ghost use Rattle.refusals.specs.Refusals.{refuses, refusal_in, map_fits, row5, call_rows, call_refusal};
ghost use Rattle.trace.specs.Fold.{calls_in, Holds};
ghost use Rattle.plain.specs.Plain as spec;
ghost use Rattle.plain.specs.Run as runs;
ghost use Rattle.plain.specs.Code.{plain_of, stepped_of, plain_left, Kept, Steps, Placed, Inside};

use refusals::Refusal;
use translation::Place;
use values::{
    Access, Answer, Call, Cause, Count, Fault, Kind, Registers, Status, Transfer, VirtualAddress,
};

// The plain machine but for its memory: the five registers and the count of calls.
#[derive(Clone, Copy)]
pub struct PlainState {
    pub registers: Registers,
    pub calls: Count,
}

// A state and an answer.
#[derive(Clone, Copy)]
pub struct Outcome {
    pub state: PlainState,
    pub answer: Answer,
}

// A fault: FSR and FAR are set.
fn faulted(s: PlainState, status: Status, domain: u32, address: VirtualAddress) -> Outcome
    requires { domain < 16 }
    ensures { (m bad : List ℕ) → stepped_of m bad result ≡ spec.plain_faulted (plain_of m bad s) status domain address }
{
    let f = Fault {
        status,
        domain,
        address,
    };
    let r = s.registers;
    let after = translation::fault_set(r, f);
    let state = PlainState {
        registers: after,
        calls: s.calls,
    };
    Outcome {
        state,
        answer: Answer::Fault(f),
    }
}

// Alignment, translation and rights.
fn reach(
    table: &[u8; 256],
    memory: &[u8],
    bad: &[u8],
    s: PlainState,
    a: Access,
) -> Result<Place, Cause>
    requires { (table.now ≡ rights_table) × Kept s.registers × (is_width a.width ≡ true) }
    ensures { CheckedIs (aligned.cleared a) result (spec.plain_reach (plain_of memory.now bad.now s) a) }
{
    let r = s.registers;
    if translation::faults_alignment(r, a) {
        return Err(Cause::new(Status::Alignment, 0));
    }
    let va = translation::cleared(a);
    let t = translation::walked_only(memory, bad, r, va);
    translation::check(table, r, a, t)
}

// The answer of a load or a swap inside memory.
fn loaded(memory: &[u8], a: Access, p: Place) -> Answer
    requires { Inside memory.now a p }
    ensures { result ≡ load_answer a.kind a.width (value_at a.width memory.now p.address.0) }
{
    let pa = p.address;
    let k = a.kind;
    let v = words::load(memory, pa.0 as usize, a.width);
    translation::load_answer(k, a.width, v)
}

// Whether a load's word aborts, or, where it may fill, one before it in its line.
fn load_aborts(memory: &[u8], bad: &[u8], s: PlainState, p: Place) -> bool
    ensures { result ≡ spec.plain_load_aborts (plain_of memory.now bad.now s) p }
{
    let pa = p.address;
    let r = s.registers;
    if translation::fills(r, p) {
        return bus::wanted_aborts(memory, bad, pa);
    }
    bus::aborts(memory, bad, pa)
}

// A load that passed.
fn load(memory: &[u8], bad: &[u8], s: PlainState, a: Access, p: Place) -> Outcome
    requires { Kept s.registers × Placed a p }
    ensures { Steps (stepped_of memory.now bad.now result)
        (spec.plain_load (plain_of memory.now bad.now s) a p) }
{
    let address = a.address;
    let r = s.registers;
    if load_aborts(memory, bad, s, p) {
        if translation::fills(r, p) {
            return faulted(s, translation::fill_status(p), p.domain, address);
        }
        return faulted(s, translation::other_status(p), p.domain, address);
    }
    Outcome {
        state: s,
        answer: loaded(memory, a, p),
    }
}

// A store that passed.
fn store(memory: &mut [u8], bad: &[u8], s: PlainState, a: Access, v: u32, p: Place) -> Outcome
    requires { Kept s.registers × Placed a p }
    ensures { Steps (stepped_of memory.new bad.now result)
        (spec.plain_store (plain_of memory.old bad.now s) a v p) }
{
    let pa = p.address;
    let address = a.address;
    let r = s.registers;
    if bus::aborts(memory, bad, pa) {
        if translation::buffers(r, p) {
            return Outcome {
                state: s,
                answer: Answer::Value(0),
            };
        }
        return faulted(s, translation::other_status(p), p.domain, address);
    }
    words::store(memory, pa.0 as usize, a.width, v);
    Outcome {
        state: s,
        answer: Answer::Value(0),
    }
}

// A swap that passed: it reads its own word.
fn swap(memory: &mut [u8], bad: &[u8], s: PlainState, a: Access, v: u32, p: Place) -> Outcome
    requires { Kept s.registers × Placed a p }
    ensures { Steps (stepped_of memory.new bad.now result)
        (spec.plain_swap (plain_of memory.old bad.now s) a v p) }
{
    if bus::aborts(memory, bad, p.address) {
        let address = a.address;
        return faulted(s, translation::other_status(p), p.domain, address);
    }
    let old = loaded(memory, a, p);
    let stored = store(memory, bad, s, a, v, p);
    let after = stored.state;
    Outcome {
        state: after,
        answer: old,
    }
}

// An access that passed, by its kind.
fn passed(memory: &mut [u8], bad: &[u8], s: PlainState, a: Access, p: Place) -> Outcome
    requires { Kept s.registers × Placed a p }
    ensures { Steps (stepped_of memory.new bad.now result)
        (spec.plain_passed (plain_of memory.old bad.now s) a p a.kind) }
{
    let k = a.kind;
    match k {
        Kind::Load | Kind::SignedLoad => load(memory, bad, s, a, p),
        Kind::Store(v) => store(memory, bad, s, a, v, p),
        Kind::Swap(v) => swap(memory, bad, s, a, v, p),
    }
}

// An access.
fn access(table: &[u8; 256], memory: &mut [u8], bad: &[u8], s: PlainState, a: Access) -> Outcome
    requires { (table.now ≡ rights_table) × Kept s.registers × (is_width a.width ≡ true) }
    ensures { Steps (stepped_of memory.new bad.now result)
        (spec.plain_access (plain_of memory.old bad.now s) a) }
{
    let address = a.address;
    let c = reach(table, memory, bad, s, a);
    match c {
        Ok(p) => passed(memory, bad, s, a, p),
        Err(why) => faulted(s, why.status, why.domain, address),
    }
}

// A CP15 read.
fn read(s: PlainState, t: Transfer) -> Outcome
    requires { s.registers.control < 0x2000 }
    ensures { (m bad : List ℕ) → stepped_of m bad result ≡ spec.plain_read (plain_of m bad s) t }
{
    let r = s.registers;
    Outcome {
        state: s,
        answer: Answer::Value(registers::read(r, t.register)),
    }
}

// A CP15 write.
fn write(s: PlainState, t: Transfer, v: u32) -> Outcome
    ensures { (m bad : List ℕ) → stepped_of m bad result ≡ spec.plain_write (plain_of m bad s) t v }
{
    let r = s.registers;
    let after = registers::written(r, t.register, v);
    let state = PlainState {
        registers: after,
        calls: s.calls,
    };
    Outcome {
        state,
        answer: Answer::Value(0),
    }
}

// A call that is not refused.
fn done(table: &[u8; 256], memory: &mut [u8], bad: &[u8], s: PlainState, c: Call) -> Outcome
    requires { (table.now ≡ rights_table) × Kept s.registers × (call_refusal c ≡ 0) }
    ensures { Steps (stepped_of memory.new bad.now result)
        (spec.plain_done (plain_of memory.old bad.now s) c) }
{
    match c {
        Call::Access(a) => access(table, memory, bad, s, a),
        Call::Read(t) => read(s, t),
        Call::Write(t, v) => write(s, t, v),
    }
}

// Refusals 16, 5 and 6 to 12 of a call, in this order; `fits` is whether the map fits.
#[tactic(auto, unfolding(values::specs::Rows::first_met))]
fn refusal(fits: bool, calls: Count, c: Call) -> Result<(), Refusal>
    ensures number { refusal_code result ≡ refusal_in (refuses 16 (not fits) ∷ row5 calls ∷ call_rows c) }
    ensures low { OnOk result (calls < count_limit) }
{
    if !fits {
        return Err(Refusal::Map);
    }
    refusals::count_refusal(calls)?;
    refusals::call_refusal(c)
}

// One call; `fits` is whether the map fits.
fn step(
    table: &[u8; 256],
    memory: &mut [u8],
    bad: &[u8],
    fits: bool,
    s: PlainState,
    c: Call,
) -> Outcome
    requires { (table.now ≡ rights_table) × Kept s.registers × (fits ≡ map_fits (length memory.old) bad.now) }
    ensures { Steps (stepped_of memory.new bad.now result)
        (spec.plainly (plain_of memory.old bad.now s) c) }
{
    if let Err(r) = refusal(fits, s.calls, c) {
        return Outcome {
            state: s,
            answer: Answer::Refused(u32::from(r)),
        };
    }
    let r = s.registers;
    let counted = PlainState {
        registers: r,
        calls: s.calls + 1,
    };
    done(table, memory, bad, counted, c)
}

// What a run leaves beside the lent lists: the state, how many calls were made, and refusal 1 or 0, a number, as C reads it.
#[derive(Clone, Copy)]
pub struct Ran {
    pub state: PlainState,
    pub made: usize,
    pub refusal: u32,
}

// The registers and the count at the start.
fn zero_state() -> PlainState
    ensures { (m bad : List ℕ) → plain_of m bad result ≡ spec.plain_start m bad }
{
    let registers = values::zero_registers();
    PlainState {
        registers,
        calls: 0,
    }
}

// The first n calls of a list, from the start; `fits` is whether the map fits.
fn run_calls(
    table: &[u8; 256],
    memory: &mut [u8],
    bad: &[u8],
    calls: &[u32],
    answers: &mut [u64],
    fits: bool,
    n: usize,
) -> Ran
    requires { (table.now ≡ rights_table) × Holds calls.now answers.old n × (fits ≡ map_fits (length memory.old) bad.now) }
    ensures { plain_left memory.new bad.now answers.new result
        ≡ runs.with_refusal
        (runs.left_by (spec.plain_start memory.old bad.now) (calls_in n calls.now 0) answers.old) 0 }
{
    let mut s = zero_state();
    for i in 0..n {
        if !trace::is_call_at(calls, i) {
            return Ran {
                state: s,
                made: i,
                refusal: 0,
            };
        }
        let c = trace::call_at(calls, i);
        let o = step(table, memory, bad, fits, s, c);
        answers[i] = trace::code(o.answer);
        s = o.state;
    }
    Ran {
        state: s,
        made: n,
        refusal: 0,
    }
}

// A run of the plain machine from the start: as many calls, of five numbers each, as both lists hold. It stops at five numbers that are
// no call. A memory whose length does not fit is refused, and nothing changes. A map that does not fit refuses each call; it is tested once.
pub fn run(memory: &mut [u8], bad: &[u8], calls: &[u32], answers: &mut [u64]) -> Ran
    ensures { plain_left memory.new bad.now answers.new result
        ≡ runs.plain_run memory.old bad.now calls.now answers.old }
{
    if !refusals::length_fits(memory.len()) {
        return Ran {
            state: zero_state(),
            made: 0,
            refusal: u32::from(Refusal::Memory),
        };
    }
    let fits = refusals::map_fits(memory.len(), bad);
    let n = trace::calls_held(calls, answers);
    let table = rights::table();
    run_calls(&table, memory, bad, calls, answers, fits, n)
}
