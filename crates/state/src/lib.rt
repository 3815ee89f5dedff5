// The state that a user holds, by value: its words and bytes, the tests of refusals 1 to 4 and 16, and the start.
#![tactic(auto)]

ghost use Rattle.std.specs.Prelude.{◌≡◌, List, ℕ, length};
ghost use Rattle.values.specs.Registers.{zero_cp15};
ghost use Rattle.machine.specs.Machine as machines;
ghost use Rattle.soundness.specs.Soundness.{sound};
ghost use Rattle.refusals.specs.Numbers.{refusal_code};
ghost use Rattle.step.specs.Meets.{state_refusal};
ghost use Rattle.step.specs.Start as starts;
ghost use Rattle.state.specs.State.{bytes_of, machine_in, started_of};

use refusals::Refusal;
use values::{Counts, Cp15};

// The sixteen bytes of a place of the write buffer.
#[repr(C)]
#[derive(Clone, Copy)]
pub struct SlotBytes {
    pub bytes: [u8; 16],
}

// The state: the memory's length at the start, the counts, the number of buffer entries, and the words of TLB, Dcache and write buffer. C lends it: arrays,
// and a number of entries beside theirs.
#[repr(C)]
#[derive(Clone, Copy)]
pub struct State {
    pub size: usize,
    pub counts: Counts,
    pub used: usize,
    pub entries: [u64; 32],
    pub lines: [u64; 512],
    pub pointers: [u32; 16],
    pub words: [u64; 8],
    pub slots: [SlotBytes; 8],
}

// The bytes of the places, by themselves.
pub fn unpacked(slots: [SlotBytes; 8]) -> [[u8; 16]; 8]
    ensures { result ≡ bytes_of slots }
{
    let mut out = [[0u8; 16]; 8];
    for i in 0..8 {
        out[i] = slots[i].bytes;
    }
    out
}

// The places of the bytes.
pub fn packed(bytes: [[u8; 16]; 8]) -> [SlotBytes; 8]
    ensures { bytes_of result ≡ bytes }
{
    let zero = SlotBytes { bytes: [0u8; 16] };
    let mut out = [zero; 8];
    for i in 0..8 {
        out[i] = SlotBytes { bytes: bytes[i] };
    }
    out
}

// Whether a state and a record are sound, for a memory of n bytes.
pub fn is_sound(state: State, cp15: Cp15, n: usize) -> bool
    ensures { (memory bad store : List ℕ) → length memory ≡ n → result ≡ sound (machine_in memory bad store state cp15) }
{
    let entries = state.entries;
    let lines = state.lines;
    let pointers = state.pointers;
    let words = state.words;
    let slots = state.slots;
    let counts = state.counts;
    let bytes = unpacked(slots);
    soundness_test::sound(
        cp15, &entries, &lines, &pointers, &words, &bytes, state.used, counts, n,
    )
}

// Refusals 1 to 4 and 16 of a call, in this order.
pub fn state_refusal(
    state: State,
    cp15: Cp15,
    memory: &[u8],
    bad: &[u8],
    store: &[u8],
) -> Result<(), Refusal>
    ensures { refusal_code result ≡ state_refusal (machine_in memory.now bad.now store.now state cp15) }
{
    refusals::lent_refusal(memory.len(), store.len())?;
    if !is_sound(state, cp15, memory.len()) {
        return Err(Refusal::State);
    }
    if state.size != memory.len() {
        return Err(Refusal::Length);
    }
    if !refusals::map_fits(memory.len(), bad) {
        return Err(Refusal::Map);
    }
    Ok(())
}

// What a start leaves: a fresh state and a record of zeros, and refusal 1 or 2, or 0.
// A number: C reads it, and a refused start has a state of zeros beside it.
#[derive(Clone, Copy)]
pub struct Started {
    pub state: State,
    pub cp15: Cp15,
    pub refusal: u32,
}

// A state of zeros but for the memory's length.
pub fn fresh(size: usize) -> State
    ensures { (memory bad store : List ℕ) → machine_in memory bad store result zero_cp15 ≡ machines.fresh size memory bad store }
{
    State {
        size,
        counts: values::zero_counts(),
        used: 0,
        entries: [0; 32],
        lines: [0; 512],
        pointers: [0; 16],
        words: [0; 8],
        slots: [SlotBytes { bytes: [0; 16] }; 8],
    }
}

// The start: a fresh state, or refusal 1 or 2 with a state all zeros. It writes to no lent bytes.
pub fn start(memory: &[u8], store: &[u8]) -> Started
    ensures { (bad : List ℕ) → started_of memory.now bad store.now result
        ≡ starts.started memory.now bad store.now }
{
    let cp15 = values::zero_cp15();
    match refusals::lent_refusal(memory.len(), store.len()) {
        Ok(()) => Started {
            state: fresh(memory.len()),
            cp15,
            refusal: 0,
        },
        Err(r) => Started {
            state: fresh(0),
            cp15,
            refusal: u32::from(r),
        },
    }
}
