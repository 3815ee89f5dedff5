// Lines of a text, replayed and printed.
#![tactic(auto)]

ghost use Rattle.std.specs.Prelude.{◌≡◌, ◌+◌, ◌*◌, ◌≤◌, ◌<◌, length};
ghost use Rattle.fields.specs.Parse.{verdict_number};
ghost use Rattle.sa110.specs.State.{machine_in};
ghost use Rattle.batch.specs.Batch as spec;
ghost use Rattle.batch.specs.Code as code;

use fields::Verdict;
use refusals::Refusal;
use sa110::State;
use values::{Answer, Cp15};

// What replayed lines leave beside the lent lists.
#[derive(Clone, Copy)]
pub struct Batch {
    pub state: State,
    pub cp15: Cp15,
    pub made: usize,
    pub end: usize,
    pub verdict: Verdict,
    pub written: usize,
}

// Where a line departed, what is printed of it, laid behind the others; the place behind them all.
fn put_departed(out: &mut [u8], at: usize, line: u64, verdict: Verdict) -> usize
    requires { (line < 10000000000000000000) × (verdict_number verdict ≡ 2 → at + 34 ≤ length out.old) }
    ensures { code.Departed out.old out.new at result line (verdict_number verdict) }
{
    match verdict {
        Verdict::Departs => {
            let code = trace::code(Answer::Refused(u32::from(Refusal::Line)));
            printed::put_line(out, at, line, code, false)
        },
        _ => at,
    }
}

// At most n lines of a text, replayed and printed.
pub fn replay_lines(
    state: State,
    cp15: Cp15,
    memory: &mut [u8],
    bad: &[u8],
    store: &mut [u8],
    text: &[u8],
    ends: bool,
    lines: u64,
    n: usize,
    out: &mut [u8],
) -> Batch
    requires { (n ≤ 1024) × (n * 34 ≤ length out.old) × (lines ≤ spec.lines_limit) }
    ensures { code.Batched (machine_in memory.old bad.now store.old state cp15) ends lines n text.now
        out.old
        memory.new bad.now store.new out.new result }
{
    let mut calls = [0u32; 5120];
    let mut answers = [0u64; 1024];
    let p = fields::parse(text, ends, &mut calls, n);
    let made = p.made;
    let r = sa110::run(
        state,
        cp15,
        memory,
        bad,
        store,
        &calls[..made * 5],
        &mut answers,
    );
    let written = printed::print(&calls, &answers, made, lines + 1, out);
    Batch {
        state: r.state,
        cp15: r.cp15,
        made,
        end: p.end,
        verdict: p.verdict,
        written: put_departed(out, written, lines + 1 + made as u64, p.verdict),
    }
}
