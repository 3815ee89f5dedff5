// The replay for C and Rust, over a lent record, which a part changes in place.
#![tactic(auto)]

ghost use Rattle.std.specs.Prelude.{◌≡◌};
ghost use Rattle.replay.specs.Parts.{part};
ghost use Rattle.replay.specs.Code.{held_of, parted_of, flag};

use replay::Replay;

// Replays a part of a text; `ends` is not 0 where the text ends with it. It gives 3 where the record is refused, else 0.
pub fn sa110_replay(
    replay: &mut Replay,
    memory: &mut [u8],
    bad: &[u8],
    store: &mut [u8],
    text: &[u8],
    ends: u32,
    out: &mut [u8],
) -> u32
    ensures { parted_of memory.new bad.now store.new out.new (record { replay = replay.new; refusal = result })
        ≡ part (flag ends) (held_of memory.old bad.now store.old replay.old) text.now
        out.old }
{
    let r = replay::replay_part(*replay, memory, bad, store, text, ends, out);
    *replay = r.replay;
    r.refusal
}
