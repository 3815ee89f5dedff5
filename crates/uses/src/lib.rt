// One list of calls on both machines. Term 3 of any use of the library stands in specs/ and proofs/.
#![tactic(auto)]

ghost use Rattle.std.specs.Prelude.{◌≡◌};
ghost use Rattle.sa110.specs.State.{ran_of};
ghost use Rattle.uses.specs.Both.{ran_from_start, BeginAlike, EndAlike};

use sa110::Ran;

// A start, and a run on what it gave.
fn run_from_start(
    memory: &mut [u8],
    bad: &[u8],
    store: &mut [u8],
    calls: &[u32],
    answers: &mut [u64],
) -> Ran
    ensures { ran_of memory.new bad.now store.new answers.new result
        ≡ ran_from_start memory.old bad.now store.old calls.now answers.old }
{
    let s = sa110::start(memory, store);
    let state = s.state;
    let cp15 = s.cp15;
    sa110::run(state, cp15, memory, bad, store, calls, answers)
}

// A list of calls on the library, from a start, and on the plain machine, with one map: whether both made as many calls. Where the two begin alike and
// the calls keep the rules, they end alike.
pub fn both(
    memory: &mut [u8],
    bad: &[u8],
    store: &mut [u8],
    other: &mut [u8],
    calls: &[u32],
    answers: &mut [u64],
    others: &mut [u64],
) -> bool
    ensures { BeginAlike memory.old bad.now store.old other.old calls.now answers.old
        others.old
        → EndAlike memory.old bad.now calls.now answers.old
        memory.new answers.new other.new others.new result }
{
    let r = run_from_start(memory, bad, store, calls, answers);
    let p = plain::run(other, bad, calls, others);
    r.made == p.made
}
