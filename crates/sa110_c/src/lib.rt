// The functions for C, Rust and Python, each by its name in the header: the library's own, with the same clauses. C links these names.
#![tactic(auto)]

ghost use Rattle.std.specs.Prelude.{◌≡◌, List, ℕ, length};
ghost use Rattle.values.specs.Bits.{number};
ghost use Rattle.soundness.specs.Soundness.{sound};
ghost use Rattle.step.specs.Start.{started};
ghost use Rattle.step.specs.Run as runs;
ghost use Rattle.sa110.specs.State.{machine_in, ran_of, started_of};
ghost use Rattle.lent.specs.Coded as coded;
ghost use Rattle.inspect.specs.Codes.{look_code};
ghost use Rattle.access_table.specs.AccessTable.{access_table};
ghost use Rattle.plain.specs.Run.{plain_run};
ghost use Rattle.host.specs.Exports as exports;
ghost use Rattle.replay.specs.Parts.{part};
ghost use Rattle.replay.specs.Code.{held_of, parted_of, flag};
ghost use Rattle.text.specs.Read.{read_back};
ghost use Rattle.text_lent.specs.Codes as texts;

use host::PlainRan;
use replay::Replay;
use sa110::State;
use values::Cp15;

// The start: a fresh state and a record of zeros, or refusal 1 or 2 with a state all zeros.
#[unsafe(no_mangle)]
pub extern "C" fn sa110_start(
    state: &mut State,
    cp15: &mut Cp15,
    memory: &[u8],
    store: &[u8],
) -> u32
    ensures { (bad : List ℕ)
        → started_of memory.now bad store.now (record { state = state.new; cp15 = cp15.new; refusal = result })
        ≡ started memory.now bad store.now }
{
    lent::sa110_start(state, cp15, memory, store)
}

// A call of five numbers.
#[unsafe(no_mangle)]
pub extern "C" fn sa110_call(
    state: &mut State,
    cp15: &mut Cp15,
    memory: &mut [u8],
    bad: &[u8],
    store: &mut [u8],
    kind: u32,
    privileged: u32,
    n: u32,
    a: u32,
    v: u32,
) -> u64
    ensures { coded.answered_of memory.new bad.now store.new
        (record { state = state.new; cp15 = cp15.new; code = result })
        ≡ coded.called_by (machine_in memory.old bad.now store.old state.old
        cp15.old) kind privileged n a v }
{
    lent::sa110_call(state, cp15, memory, bad, store, kind, privileged, n, a, v)
}

// A run over a list of calls, five numbers each: how many calls were made.
#[unsafe(no_mangle)]
pub extern "C" fn sa110_run(
    state: &mut State,
    cp15: &mut Cp15,
    memory: &mut [u8],
    bad: &[u8],
    store: &mut [u8],
    calls: &[u32],
    answers: &mut [u64],
) -> usize
    ensures { ran_of memory.new bad.now store.new answers.new
        (record { state = state.new; cp15 = cp15.new; made = result })
        ≡ runs.run (machine_in memory.old bad.now store.old state.old cp15.old)
        calls.now answers.old }
{
    lent::sa110_run(state, cp15, memory, bad, store, calls, answers)
}

// A look: whether memory or the cache store has the 32 bytes of a virtual address's line, and where.
#[unsafe(no_mangle)]
pub extern "C" fn sa110_look(
    state: &State,
    cp15: &Cp15,
    memory: &[u8],
    bad: &[u8],
    store: &[u8],
    va: u32,
) -> u64
    ensures { result ≡ look_code
        (machine_in memory.now bad.now store.now state.now cp15.now) va }
{
    inspect::sa110_look(state, cp15, memory, bad, store, va)
}

// The test of soundness for a memory of n bytes: 1 sound, 0 unsound.
#[unsafe(no_mangle)]
pub extern "C" fn sa110_sound(state: &State, cp15: &Cp15, n: usize) -> u32
    ensures { (memory bad store : List ℕ) → length memory ≡ n
        → result ≡ number (sound (machine_in memory bad store state.now cp15.now)) }
{
    inspect::sa110_sound(state, cp15, n)
}

// An entry of the rights table: 0 allowed, 1 domain fault, 2 permission fault; 255 behind its end.
#[unsafe(no_mangle)]
pub extern "C" fn sa110_right(index: u32) -> u8
    ensures { result ≡ exports.right_code index }
{
    host::sa110_right(index)
}

// Fills a lent array with the rights table's 256 entries, worked out from the domain values and 001's table 2-3.
#[unsafe(no_mangle)]
pub extern "C" fn sa110_rights_table(table: &mut [u8; 256])
    ensures { table.new ≡ access_table }
{
    host::sa110_rights_table(table);
}

// The walk for an address, over a memory and its map: the word of a TLB entry, which is odd, or twice the fault's domain × 16 + status.
#[unsafe(no_mangle)]
pub extern "C" fn sa110_walk(memory: &[u8], bad: &[u8], base: u32, va: u32) -> u64
    ensures { result ≡ exports.walk_code memory.now bad.now base va }
{
    host::sa110_walk(memory, bad, base, va)
}

// A run of the plain machine, on a memory and its map, over a list of calls, five numbers each.
#[unsafe(no_mangle)]
pub extern "C" fn sa110_plain_run(
    memory: &mut [u8],
    bad: &[u8],
    calls: &[u32],
    answers: &mut [u64],
) -> PlainRan
    ensures { exports.plain_ran_of memory.new bad.now answers.new result
        ≡ plain_run memory.old bad.now calls.now answers.old }
{
    host::sa110_plain_run(memory, bad, calls, answers)
}

// Replays a part of a text; `ends` is not 0 where the text ends with it. It gives 3 where the record is refused, else 0.
#[unsafe(no_mangle)]
pub extern "C" fn sa110_replay(
    replay: &mut Replay,
    memory: &mut [u8],
    bad: &[u8],
    store: &mut [u8],
    text: &[u8],
    ends: u32,
    out: &mut [u8],
) -> u32
    ensures { parted_of memory.new bad.now store.new out.new (record { replay = replay.new; refusal = result })
        ≡ part (flag ends) (held_of memory.old bad.now store.old replay.old) text.now
        out.old }
{
    replay_lent::sa110_replay(replay, memory, bad, store, text, ends, out)
}

// Stores a state and a record as text at the front of a slice.
#[unsafe(no_mangle)]
pub extern "C" fn sa110_store_text(
    state: &State,
    cp15: &Cp15,
    memory: &[u8],
    text: &mut [u8],
) -> u64
    ensures { (bad store : List ℕ) → texts.stored_code text.new result
        ≡ texts.stored_as (machine_in memory.now bad store state.now cp15.now) text.old }
{
    text_lent::sa110_store_text(state, cp15, memory, text)
}

// Reads a text back into a state and a record: 0, or refusal 1, 14, 3 or 4 with a state and a record all zeros.
#[unsafe(no_mangle)]
pub extern "C" fn sa110_read_text(
    state: &mut State,
    cp15: &mut Cp15,
    memory: &[u8],
    text: &[u8],
) -> u32
    ensures { (bad store : List ℕ) → started_of memory.now bad store (record { state = state.new; cp15 = cp15.new; refusal = result })
        ≡ read_back memory.now bad store text.now }
{
    text_lent::sa110_read_text(state, cp15, memory, text)
}
