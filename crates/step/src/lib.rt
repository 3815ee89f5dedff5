// One call, and a list of calls, on lent lists that refusals 1 to 4 and 16 do not hold of.
#![tactic(auto)]

ghost use Rattle.std.specs.Prelude.{◌≡◌, ◌∷◌, List, ℕ, ◌+◌, ◌*◌, ◌<◌, ◌≤◌, length, OnOk};
ghost use Rattle.machine.specs.Lists.{Lists, machine_of, stepped_of, lists_of, Kept};
ghost use Rattle.machine.specs.Ready.{CleanReady};
ghost use Rattle.machine.specs.Scalars.{outcome_from};
ghost use Rattle.values.specs.Counts.{count_limit};
ghost use Rattle.refusals.specs.Numbers.{number_of, refusal_code};
ghost use Rattle.refusals.specs.Refusals.{refusal_in, row5, call_rows};
ghost use Rattle.step.specs.Call as spec;
ghost use Rattle.step.specs.Run as runs;
ghost use Rattle.step.specs.Code.{Serves, Ready, Steps};
ghost use Rattle.trace.specs.Calls.{call_at};
ghost use Rattle.trace.specs.Fold.{calls_in, Holds, leaves};

use machine::{Lent, Outcome, Scalars};
use refusals::Refusal;
use values::{Access, Answer, Call, Count, Transfer};

// A refused call changes nothing.
fn refused(s: Scalars, r: Refusal) -> Outcome
    ensures { result ≡ outcome_from s (Answer.Refused (number_of r)) }
{
    Outcome {
        scalars: s,
        answer: Answer::Refused(u32::from(r)),
    }
}

// Refusals 5 to 7 of an access.
#[tactic(auto, unfolding(values::specs::Rows::first_met))]
fn access_refusal(calls: Count, a: Access) -> Result<(), Refusal>
    ensures number { refusal_code result ≡ refusal_in (row5 calls ∷ call_rows (Call.Access a)) }
    ensures low { OnOk result (calls < count_limit) }
{
    refusals::count_refusal(calls)?;
    refusals::access_refusal(a)
}

// Refusals 5 to 12 of a call.
#[tactic(auto, unfolding(values::specs::Rows::first_met))]
fn call_refusal(calls: Count, c: Call) -> Result<(), Refusal>
    ensures number { refusal_code result ≡ refusal_in (row5 calls ∷ call_rows c) }
    ensures low { OnOk result (calls < count_limit) }
{
    refusals::count_refusal(calls)?;
    refusals::call_refusal(c)
}

// An access.
fn access_step(
    table: &[u8; 256],
    side: &mut Lent,
    entries: &mut [u64],
    s: Scalars,
    a: Access,
) -> Outcome
    requires { Ready table.now (lists_of side.old) entries.old s }
    ensures { Steps (lists_of side.old) entries.old s (Call.Access a) (lists_of side.new) entries.new result × Kept side.old side.new }
{
    if let Err(r) = access_refusal(s.counts.calls, a) {
        return refused(s, r);
    }
    access::serve(table, side, entries, machine::counted(s), a)
}

// A CP15 read.
fn read_step(s: Scalars, t: Transfer) -> Outcome
    requires { s.cp15.registers.control < 0x2000 }
    ensures { (l : Lists) (entries : List ℕ) (size : ℕ) → Serves (machine_of l entries s size)
        → stepped_of l entries size result ≡ spec.served (machine_of l entries s size) (Call.Read t) }
{
    if let Err(r) = call_refusal(s.counts.calls, Call::Read(t)) {
        return refused(s, r);
    }
    cp15::read(machine::counted(s), t)
}

// A CP15 write.
fn write_step(side: &mut Lent, entries: &mut [u64], s: Scalars, t: Transfer, v: u32) -> Outcome
    requires { (length entries.old ≡ 32) × (length side.old.bytes.now ≡ 8)
        × (s.counts.calls < count_limit → CleanReady side.old.memory.now side.old.words.now side.old.bytes.now side.old.lines.now side.old.store.now s) }
    ensures { ((size : ℕ) → Serves (machine_of (lists_of side.old) entries.old s size)
        → stepped_of (lists_of side.new) entries.new size result
        ≡ spec.served (machine_of (lists_of side.old) entries.old s size) (Call.Write t v))
        × (length side.new.bytes.now ≡ 8) × Kept side.old side.new }
{
    if let Err(r) = call_refusal(s.counts.calls, Call::Write(t, v)) {
        return refused(s, r);
    }
    let bad = side.bad;
    let store = &mut *side.store;
    cp15::write(
        side.memory,
        bad,
        side.words,
        side.bytes,
        side.lines,
        store,
        entries,
        machine::counted(s),
        t,
        v,
    )
}

// A call on a machine that refusals 1 to 4 and 16 do not hold of.
pub fn step(table: &[u8; 256], side: &mut Lent, entries: &mut [u64], s: Scalars, c: Call) -> Outcome
    requires { Ready table.now (lists_of side.old) entries.old s }
    ensures { Steps (lists_of side.old) entries.old s c (lists_of side.new) entries.new result × Kept side.old side.new }
{
    match c {
        Call::Access(a) => access_step(table, side, entries, s, a),
        Call::Read(t) => read_step(s, t),
        Call::Write(t, v) => write_step(side, entries, s, t, v),
    }
}

// Call i of a list: its numbers become the access or the transfer, with no call between them that a compiler would keep in memory.
fn step_at(
    table: &[u8; 256],
    side: &mut Lent,
    entries: &mut [u64],
    s: Scalars,
    calls: &[u32],
    i: usize,
) -> Outcome
    requires { Ready table.now (lists_of side.old) entries.old s × (i * 5 + 5 ≤ length calls.now) }
    ensures { Steps (lists_of side.old) entries.old s (call_at calls.now i) (lists_of side.new) entries.new result × Kept side.old side.new }
{
    let kind = calls[i * 5];
    if kind == 3 {
        return read_step(s, trace::transfer_at(calls, i));
    }
    if kind == 4 {
        return write_step(
            side,
            entries,
            s,
            trace::transfer_at(calls, i),
            calls[i * 5 + 4],
        );
    }
    access_step(table, side, entries, s, trace::access_at(calls, i))
}

// The scalars after a run, and how many calls were made. Three loops go over a list of calls, one over each state (run_calls here and in plain) and one
// over none (refuse_calls): what a loop over a closure would share is the test of a call and the store of its code, two lines.
#[derive(Clone, Copy)]
pub struct Folded {
    pub scalars: Scalars,
    pub made: usize,
}

// The first n calls of a list, on a machine that refusals 1 to 4 and 16 do not hold of: none of them holds of a machine that a call leaves.
pub fn run_calls(
    table: &[u8; 256],
    side: &mut Lent,
    entries: &mut [u64],
    first: Scalars,
    calls: &[u32],
    answers: &mut [u64],
    n: usize,
) -> Folded
    requires { Ready table.now (lists_of side.old) entries.old first × Holds calls.now answers.old n }
    ensures { (leaves (machine_of (lists_of side.new) entries.new result.scalars (length side.old.memory.now))
        answers.new result.made
        ≡ runs.left_by (machine_of (lists_of side.old) entries.old first (length side.old.memory.now))
        (calls_in n calls.now 0) answers.old) × Kept side.old side.new }
{
    let mut s = first;
    for i in 0..n {
        if !trace::is_call_at(calls, i) {
            return Folded {
                scalars: s,
                made: i,
            };
        }
        let o = step_at(table, side, entries, s, calls, i);
        answers[i] = trace::code(o.answer);
        s = o.scalars;
    }
    Folded {
        scalars: s,
        made: n,
    }
}

// The first n calls of a list, each refused by the number. It answers how many calls there were.
// A number and no Refusal: the promise is for every number.
pub fn refuse_calls(calls: &[u32], answers: &mut [u64], n: usize, refusal: u32) -> usize
    requires { Holds calls.now answers.old n }
    ensures { leaves {S = Unit {0}} tt answers.new result
        ≡ runs.refused_all {S = Unit {0}} refusal tt (calls_in n calls.now 0) answers.old }
{
    for i in 0..n {
        if !trace::is_call_at(calls, i) {
            return i;
        }
        answers[i] = trace::code(Answer::Refused(refusal));
    }
    n
}
