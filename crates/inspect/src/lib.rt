// Functions for C and Rust that read a lent state and record and change nothing: the look, and the test of soundness.
#![tactic(auto)]

ghost use Rattle.std.specs.Prelude.{◌≡◌, List, ℕ, length};
ghost use Rattle.values.specs.Bits.{number};
ghost use Rattle.soundness.specs.Soundness.{sound};
ghost use Rattle.sa110.specs.State.{machine_in};
ghost use Rattle.look.specs.Look.{Inside};
ghost use Rattle.inspect.specs.Codes.{part_code, look_code};

use sa110::{Part, State};
use values::{Cp15, VirtualAddress};

// A part as a number.
fn part_code(p: Part) -> u64
    requires { Inside 0x1000000 16384 p }
    ensures { result ≡ part_code p }
{
    match p {
        Part::OfStore(i) => trace::KIND_UNIT + (i as u64) * 32,
        Part::OfMemory(i) => 2 * trace::KIND_UNIT + (i as u64) * 32,
        Part::Empty => 0,
    }
}

// A look, state and record by value.
fn look_code(state: State, cp15: Cp15, memory: &[u8], bad: &[u8], store: &[u8], va: u32) -> u64
    ensures { result ≡ look_code
        (machine_in memory.now bad.now store.now state cp15) va }
{
    let p = sa110::shown(state, cp15, memory, bad, store, VirtualAddress(va));
    part_code(p)
}

// A look: whether memory or the cache store has the 32 bytes of a virtual address's line, and where.
pub fn sa110_look(
    state: &State,
    cp15: &Cp15,
    memory: &[u8],
    bad: &[u8],
    store: &[u8],
    va: u32,
) -> u64
    ensures { result ≡ look_code
        (machine_in memory.now bad.now store.now state.now cp15.now) va }
{
    look_code(*state, *cp15, memory, bad, store, va)
}

// The test of soundness as a number, state and record by value.
fn sound_code(state: State, cp15: Cp15, n: usize) -> u32
    ensures { (memory bad store : List ℕ) → length memory ≡ n → result ≡ number (sound (machine_in memory bad store state cp15)) }
{
    values::bit_number(sa110::is_sound(state, cp15, n))
}

// The test of soundness for a memory of n bytes: 1 sound, 0 unsound.
pub fn sa110_sound(state: &State, cp15: &Cp15, n: usize) -> u32
    ensures { (memory bad store : List ℕ) → length memory ≡ n
        → result ≡ number (sound (machine_in memory bad store state.now cp15.now)) }
{
    sound_code(*state, *cp15, n)
}
