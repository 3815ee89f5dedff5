// Functions for C and Rust over a lent state and record: stored as text, and read back.
#![tactic(auto)]

ghost use Rattle.std.specs.Prelude.{◌≡◌, List, ℕ};
ghost use Rattle.sa110.specs.State.{machine_in, started_of};
ghost use Rattle.text.specs.Read.{read_back};
ghost use Rattle.text_lent.specs.Codes as coded;

use sa110::State;
use values::Cp15;

// The answer of storing, state and record by value: the text's length, or 2 × 2^32 and the refusal's number.
fn store_code(state: State, cp15: Cp15, memory: &[u8], text: &mut [u8]) -> u64
    ensures { (bad store : List ℕ) → coded.stored_code text.new result
        ≡ coded.stored_as (machine_in memory.now bad store state cp15) text.old }
{
    trace::code(text::store(state, cp15, memory, text))
}

// Stores a state and a record as text at the front of a slice.
pub fn sa110_store_text(state: &State, cp15: &Cp15, memory: &[u8], text: &mut [u8]) -> u64
    ensures { (bad store : List ℕ) → coded.stored_code text.new result
        ≡ coded.stored_as (machine_in memory.now bad store state.now cp15.now) text.old }
{
    store_code(*state, *cp15, memory, text)
}

// Reads a text back into a state and a record: 0, or refusal 1, 14, 3 or 4 with a state and a record all zeros.
pub fn sa110_read_text(state: &mut State, cp15: &mut Cp15, memory: &[u8], text: &[u8]) -> u32
    ensures { (bad store : List ℕ) → started_of memory.now bad store (record { state = state.new; cp15 = cp15.new; refusal = result })
        ≡ read_back memory.now bad store text.now }
{
    let r = text::read(memory, text);
    *state = r.state;
    *cp15 = r.cp15;
    r.refusal
}
