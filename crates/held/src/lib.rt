// What a replay holds between two parts: the start, the test of its fields, and what is held behind lines and behind bytes put out.
#![tactic(auto)]

ghost use Rattle.std.specs.Prelude.{◌≡◌, List, [], ℕ, ◌+◌, ◌≤◌, length, take, drop};
ghost use Rattle.fields.specs.Parse.{verdict_number};
ghost use Rattle.sa110.specs.State.{machine_in};
ghost use Rattle.batch.specs.Batch.{lines_limit};
ghost use Rattle.held.specs.Held as spec;
ghost use Rattle.held.specs.Code as code;

use batch::Batch;
use fields::Verdict;
use sa110::State;
use values::Cp15;

// The most lines behind which a part is not refused.
const LINES: u64 = 0x7FFFFFFFFFFFFFFF;

// What is held between two parts. `taken` and `written` are what the last part took of its text and wrote into its slice. Bytes have their number beside
// them, and `stopped` is a number: C lends the record.
#[repr(C)]
#[derive(Clone, Copy)]
pub struct Replay {
    pub state: State,
    pub cp15: Cp15,
    pub lines: u64,
    pub held: usize,
    pub waiting: usize,
    pub stopped: u32,
    pub begun: [u8; 64],
    pub pending: [u8; 64],
    pub taken: usize,
    pub written: usize,
}

// What a part or a start leaves beside the lent lists: the refusal is 3 of a part, 1 or 2 of a start, else 0, a number, as C reads it.
#[derive(Clone, Copy)]
pub struct Part {
    pub replay: Replay,
    pub refusal: u32,
}

// The start: a fresh state, with nothing replayed; 1 or 2 where the library's start is refused, else 0.
pub fn replay_start(memory: &[u8], store: &[u8]) -> Part
    ensures { (bad : List ℕ)
        → code.parted_of memory.now bad store.now [] result ≡ spec.start_replay memory.now bad store.now }
{
    let s = sa110::start(memory, store);
    let state = s.state;
    let cp15 = s.cp15;
    let replay = Replay {
        state,
        cp15,
        lines: 0,
        held: 0,
        waiting: 0,
        stopped: 0,
        begun: [0u8; 64],
        pending: [0u8; 64],
        taken: 0,
        written: 0,
    };
    Part {
        replay,
        refusal: s.refusal,
    }
}

// Whether a part is not refused, by the record's fields.
#[tactic(auto, unfolding(crate::specs::Held::kept))]
pub fn is_kept(lines: u64, held: usize, waiting: usize, begun: [u8; 64]) -> bool
    ensures { result ≡ spec.kept lines held waiting begun }
{
    lines <= LINES && held <= 63 && waiting <= 64 && !pieces::has_feed(&begun, held)
}

// Writes the first n bytes of a list at the front of the slice, as many as it holds; the others wait.
pub fn put_out(replay: Replay, bytes: &[u8], n: usize, out: &mut [u8], taken: usize) -> Part
    requires { (n ≤ length bytes.now) × (n ≤ 64) }
    ensures { (memory bad store : List ℕ) → code.parted_of memory bad store out.new result
        ≡ spec.put_out (code.held_of memory bad store replay) (take n bytes.now) out.old taken }
{
    let k = n.min(out.len());
    pieces::copy(bytes, k, out);
    let pending = pieces::padded(bytes, k, n);
    let mut after = replay;
    after.waiting = n - k;
    after.pending = pending;
    after.taken = taken;
    after.written = k;
    Part {
        replay: after,
        refusal: 0,
    }
}

// What is held behind replayed lines of a text.
pub fn settled(b: Batch, lines: u64, text: &[u8]) -> Replay
    requires { (b.end ≤ length text.now) × (lines ≤ lines_limit) × (b.made ≤ 1024)
        × (verdict_number b.verdict ≡ 1 → length text.now ≤ b.end + 63) }
    ensures { (memory bad store : List ℕ) → code.held_of memory bad store result
        ≡ spec.settled (machine_in memory bad store b.state b.cp15) lines b.made (verdict_number b.verdict) (drop b.end text.now) }
{
    let state = b.state;
    let cp15 = b.cp15;
    let mut r = Replay {
        state,
        cp15,
        lines: lines + b.made as u64,
        held: 0,
        waiting: 0,
        stopped: 0,
        begun: [0u8; 64],
        pending: [0u8; 64],
        taken: 0,
        written: 0,
    };
    match b.verdict {
        Verdict::More => {}
        Verdict::Open => {
            r.held = text.len() - b.end;
            r.begun = pieces::padded(text, b.end, text.len());
        }
        Verdict::Departs => {
            r.lines = lines + b.made as u64 + 1;
            r.stopped = 1;
        }
    }
    r
}

// A replay that a part leaves as it was, but for what was taken and written. The refusal is a number: the promise is for every number.
pub fn passed(replay: Replay, taken: usize, refusal: u32) -> Part
    ensures { (memory bad store out : List ℕ) → code.parted_of memory bad store out result
        ≡ spec.parted_from (code.held_of memory bad store replay) taken 0 out refusal }
{
    let mut after = replay;
    after.taken = taken;
    after.written = 0;
    Part {
        replay: after,
        refusal,
    }
}
