// A trace kept as text, replayed in parts: text in, text out.
#![tactic(auto)]

ghost use Rattle.std.specs.Prelude.{◌≡◌, true, cond, ◌&&◌, eqb, leb, ◌/◌, ◌≤◌, min, length};
ghost use Rattle.fields.specs.Parse.{verdict_number};
ghost use Rattle.batch.specs.Batch.{lines_limit};
ghost use Rattle.replay.specs.Parts as spec;
ghost use Rattle.replay.specs.Code as code;

use fields::Verdict;
pub use held::{Part, Replay, replay_start};
use refusals::Refusal;

// The most lines that one part replays.
const BATCH: usize = 1024;

// Whether a text of n bytes ends and all of it was taken.
fn is_last(ends: bool, taken: usize, n: usize) -> bool
    ensures { result ≡ (ends && eqb taken n) }
{
    ends && taken == n
}

// How much of a text of n bytes was taken, by what comes behind the lines replayed, which end at a place: all, where no more lines come.
fn taken_by(verdict: Verdict, at: usize, n: usize) -> usize
    ensures { result ≡ cond (eqb (verdict_number verdict) 0) at n }
{
    match verdict {
        Verdict::More => at,
        _ => n,
    }
}

// Replays the lines of a text, where none is begun and the slice has room for them.
fn replay_many(
    replay: Replay,
    memory: &mut [u8],
    bad: &[u8],
    store: &mut [u8],
    text: &[u8],
    ends: bool,
    out: &mut [u8],
) -> Part
    requires { (replay.lines ≤ lines_limit) × (replay.held ≡ 0) × (34 ≤ length out.old) }
    ensures { code.parted_of memory.new bad.now store.new out.new result
        ≡ spec.replayed ends (min (length out.old / 34) 1024) (code.held_of memory.old bad.now store.old replay)
        text.now out.old }
{
    let state = replay.state;
    let cp15 = replay.cp15;
    let lines = replay.lines;
    let n = (out.len() / printed::WIDEST).min(BATCH);
    let b = batch::replay_lines(state, cp15, memory, bad, store, text, ends, lines, n, out);
    let mut after = held::settled(b, lines, text);
    after.taken = taken_by(b.verdict, b.end, text.len());
    after.written = b.written;
    Part {
        replay: after,
        refusal: 0,
    }
}

// Replays one line: the line begun with what belongs to it of the text. It is printed aside, since the slice may not have room for it.
fn replay_one(
    replay: Replay,
    memory: &mut [u8],
    bad: &[u8],
    store: &mut [u8],
    text: &[u8],
    ends: bool,
    out: &mut [u8],
) -> Part
    requires { spec.kept replay.lines replay.held replay.waiting replay.begun ≡ true }
    ensures { code.parted_of memory.new bad.now store.new out.new result
        ≡ spec.replayed ends 1 (code.held_of memory.old bad.now store.old replay) text.now out.old }
{
    let state = replay.state;
    let cp15 = replay.cp15;
    let lines = replay.lines;
    let held = replay.held;
    let mut line = replay.begun;
    let mut printed = [0u8; 34];
    let taken = pieces::join(&mut line, held, text);
    let whole = &line[..held + taken];
    let last = is_last(ends, taken, text.len());
    let b = batch::replay_lines(
        state,
        cp15,
        memory,
        bad,
        store,
        whole,
        last,
        lines,
        1,
        &mut printed,
    );
    let after = held::settled(b, lines, whole);
    held::put_out(
        after,
        &printed,
        b.written,
        out,
        taken_by(b.verdict, taken, text.len()),
    )
}

// Whether no line is begun and the slice has room for a line.
fn is_roomy(held: usize, room: usize) -> bool
    ensures { result ≡ (eqb held 0 && leb 34 room) }
{
    held == 0 && room >= printed::WIDEST
}

// Replays lines: as many as the slice has room for, or one.
fn replay_text(
    replay: Replay,
    memory: &mut [u8],
    bad: &[u8],
    store: &mut [u8],
    text: &[u8],
    ends: bool,
    out: &mut [u8],
) -> Part
    requires { spec.kept replay.lines replay.held replay.waiting replay.begun ≡ true }
    ensures { code.parted_of memory.new bad.now store.new out.new result
        ≡ spec.replayed ends (spec.lines_at_most replay.held (length out.old))
        (code.held_of memory.old bad.now store.old replay) text.now out.old }
{
    if is_roomy(replay.held, out.len()) {
        return replay_many(replay, memory, bad, store, text, ends, out);
    }
    replay_one(replay, memory, bad, store, text, ends, out)
}

// A part of a text; `ends` is not 0 where the text ends with it: a number, as C passes it.
pub fn replay_part(
    replay: Replay,
    memory: &mut [u8],
    bad: &[u8],
    store: &mut [u8],
    text: &[u8],
    ends: u32,
    out: &mut [u8],
) -> Part
    ensures { code.parted_of memory.new bad.now store.new out.new result
        ≡ spec.part (code.flag ends) (code.held_of memory.old bad.now store.old replay) text.now
        out.old }
{
    let begun = replay.begun;
    let pending = replay.pending;
    if !held::is_kept(replay.lines, replay.held, replay.waiting, begun) {
        return held::passed(replay, 0, u32::from(Refusal::State));
    }
    if replay.waiting != 0 {
        return held::put_out(replay, &pending, replay.waiting, out, 0);
    }
    if replay.stopped != 0 {
        return held::passed(replay, text.len(), 0);
    }
    replay_text(replay, memory, bad, store, text, ends != 0, out)
}
