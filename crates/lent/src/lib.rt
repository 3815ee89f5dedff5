// Functions for C and Rust over a lent state and record, which a call changes in place.
#![tactic(auto)]

ghost use Rattle.std.specs.Prelude.{List, ◌≡◌, ℕ};
ghost use Rattle.step.specs.Start.{started};
ghost use Rattle.step.specs.Run as runs;
ghost use Rattle.sa110.specs.State.{machine_in, ran_of, started_of};
ghost use Rattle.lent.specs.Coded as coded;

use sa110::State;
use values::Cp15;

// The start: a fresh state and a record of zeros, or refusal 1 or 2 with a state all zeros.
pub fn sa110_start(state: &mut State, cp15: &mut Cp15, memory: &[u8], store: &[u8]) -> u32
    ensures { (bad : List ℕ)
        → started_of memory.now bad store.now (record { state = state.new; cp15 = cp15.new; refusal = result })
        ≡ started memory.now bad store.now }
{
    let r = sa110::start(memory, store);
    *state = r.state;
    *cp15 = r.cp15;
    r.refusal
}

// What a call leaves beside the lent bytes, its answer as one number.
#[derive(Clone, Copy)]
pub struct Answered {
    pub state: State,
    pub cp15: Cp15,
    pub code: u64,
}

// A call of five numbers, state and record by value: a run over a list of that call. A run leaves the answer as it is where the numbers are no call.
fn call_numbers(
    state: State,
    cp15: Cp15,
    memory: &mut [u8],
    bad: &[u8],
    store: &mut [u8],
    kind: u32,
    privileged: u32,
    n: u32,
    a: u32,
    v: u32,
) -> Answered
    ensures { coded.answered_of memory.new bad.now store.new result
        ≡ coded.called_by (machine_in memory.old bad.now store.old state cp15) kind privileged n a v }
{
    let calls = [kind, privileged, n, a, v];
    let mut answers = [trace::NO_CALL; 1];
    let r = sa110::run(state, cp15, memory, bad, store, &calls, &mut answers);
    let after = r.state;
    let left = r.cp15;
    let code = answers[0];
    Answered {
        state: after,
        cp15: left,
        code,
    }
}

// A call of five numbers.
pub fn sa110_call(
    state: &mut State,
    cp15: &mut Cp15,
    memory: &mut [u8],
    bad: &[u8],
    store: &mut [u8],
    kind: u32,
    privileged: u32,
    n: u32,
    a: u32,
    v: u32,
) -> u64
    ensures { coded.answered_of memory.new bad.now store.new
        (record { state = state.new; cp15 = cp15.new; code = result })
        ≡ coded.called_by (machine_in memory.old bad.now store.old state.old
        cp15.old) kind privileged n a v }
{
    let r = call_numbers(*state, *cp15, memory, bad, store, kind, privileged, n, a, v);
    *state = r.state;
    *cp15 = r.cp15;
    r.code
}

// A run over a list of calls, five numbers each: how many calls were made.
pub fn sa110_run(
    state: &mut State,
    cp15: &mut Cp15,
    memory: &mut [u8],
    bad: &[u8],
    store: &mut [u8],
    calls: &[u32],
    answers: &mut [u64],
) -> usize
    ensures { ran_of memory.new bad.now store.new answers.new
        (record { state = state.new; cp15 = cp15.new; made = result })
        ≡ runs.run (machine_in memory.old bad.now store.old state.old cp15.old)
        calls.now answers.old }
{
    let r = sa110::run(*state, *cp15, memory, bad, store, calls, answers);
    *state = r.state;
    *cp15 = r.cp15;
    r.made
}
