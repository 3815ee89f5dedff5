// The library's calls: what users call. The state with its start and its test, and the look, come from crates of their own.
#![tactic(auto)]

ghost use Rattle.std.specs.Prelude.{◌≡◌};
ghost use Rattle.trace.specs.Fold.{calls_in, Holds};
ghost use Rattle.step.specs.Meets.{state_refusal};
ghost use Rattle.step.specs.Call as spec;
ghost use Rattle.step.specs.Run as runs;
ghost use Rattle.sa110.specs.State.{machine_in, called_of, ran_of};

pub use look::{Part, look, shown};
use machine::Lent;
pub use state::{SlotBytes, Started, State, is_sound, start};
use values::{Answer, Call, Cp15};

// What a call leaves beside the lent bytes.
#[derive(Clone, Copy)]
pub struct Called {
    pub state: State,
    pub cp15: Cp15,
    pub answer: Answer,
}

// A call on a machine that refusals 1 to 4 and 16 do not hold of.
fn serve(
    state: State,
    cp15: Cp15,
    memory: &mut [u8],
    bad: &[u8],
    store: &mut [u8],
    c: Call,
) -> Called
    requires { state_refusal (machine_in memory.old bad.now store.old state cp15) ≡ 0 }
    ensures { called_of memory.new bad.now store.new result
        ≡ spec.served (machine_in memory.old bad.now store.old state cp15) c }
{
    let table = rights::table();
    let mut entries = state.entries;
    let mut lines = state.lines;
    let mut pointers = state.pointers;
    let mut words = state.words;
    let slots = state.slots;
    let counts = state.counts;
    let mut bytes = state::unpacked(slots);
    let scalars = machine::scalars_of(cp15, counts, state.used);
    let mut side = Lent {
        memory,
        bad,
        words: &mut words,
        bytes: &mut bytes,
        lines: &mut lines,
        pointers: &mut pointers,
        store,
    };
    let o = step::step(&table, &mut side, &mut entries, scalars, c);
    let t = o.scalars;
    let answer = o.answer;
    let record = t.cp15;
    let counted = t.counts;
    let held = state::packed(bytes);
    let after = State {
        size: state.size,
        counts: counted,
        used: t.used,
        entries,
        lines,
        pointers,
        words,
        slots: held,
    };
    Called {
        state: after,
        cp15: record,
        answer,
    }
}

// One call: refusals 1 to 4, 16, and 5 to 12, in this order, each changing nothing.
pub fn call(
    state: State,
    cp15: Cp15,
    memory: &mut [u8],
    bad: &[u8],
    store: &mut [u8],
    c: Call,
) -> Called
    ensures { called_of memory.new bad.now store.new result
        ≡ spec.served (machine_in memory.old bad.now store.old state cp15) c }
{
    if let Err(r) = state::state_refusal(state, cp15, memory, bad, store) {
        return Called {
            state,
            cp15,
            answer: Answer::Refused(u32::from(r)),
        };
    }
    serve(state, cp15, memory, bad, store, c)
}

// What a run leaves beside the lent lists.
#[derive(Clone, Copy)]
pub struct Ran {
    pub state: State,
    pub cp15: Cp15,
    pub made: usize,
}

// The first n calls of a list on a machine that refusals 1 to 4 and 16 do not hold of.
fn run_served(
    state: State,
    cp15: Cp15,
    memory: &mut [u8],
    bad: &[u8],
    store: &mut [u8],
    calls: &[u32],
    answers: &mut [u64],
    n: usize,
) -> Ran
    requires { (state_refusal (machine_in memory.old bad.now store.old state cp15) ≡ 0) × Holds calls.now answers.old n }
    ensures { ran_of memory.new bad.now store.new answers.new result
        ≡ runs.left_by (machine_in memory.old bad.now store.old state cp15) (calls_in n calls.now 0)
        answers.old }
{
    let table = rights::table();
    let mut entries = state.entries;
    let mut lines = state.lines;
    let mut pointers = state.pointers;
    let mut words = state.words;
    let slots = state.slots;
    let counts = state.counts;
    let mut bytes = state::unpacked(slots);
    let scalars = machine::scalars_of(cp15, counts, state.used);
    let mut side = Lent {
        memory,
        bad,
        words: &mut words,
        bytes: &mut bytes,
        lines: &mut lines,
        pointers: &mut pointers,
        store,
    };
    let f = step::run_calls(&table, &mut side, &mut entries, scalars, calls, answers, n);
    let t = f.scalars;
    let record = t.cp15;
    let counted = t.counts;
    let held = state::packed(bytes);
    let after = State {
        size: state.size,
        counts: counted,
        used: t.used,
        entries,
        lines,
        pointers,
        words,
        slots: held,
    };
    Ran {
        state: after,
        cp15: record,
        made: f.made,
    }
}

// A run over a list of calls, of five numbers each: as many as the lists of calls and answers hold, up to five numbers that are no call.
// It is the fold of `call`; refusals 1 to 4 and 16 are tested once.
pub fn run(
    state: State,
    cp15: Cp15,
    memory: &mut [u8],
    bad: &[u8],
    store: &mut [u8],
    calls: &[u32],
    answers: &mut [u64],
) -> Ran
    ensures { ran_of memory.new bad.now store.new answers.new result
        ≡ runs.run (machine_in memory.old bad.now store.old state cp15) calls.now answers.old }
{
    let n = trace::calls_held(calls, answers);
    if let Err(r) = state::state_refusal(state, cp15, memory, bad, store) {
        return Ran {
            state,
            cp15,
            made: step::refuse_calls(calls, answers, n, u32::from(r)),
        };
    }
    run_served(state, cp15, memory, bad, store, calls, answers, n)
}
