// A state and a record stored as text, and read back.
#![tactic(auto)]

ghost use Rattle.std.specs.Prelude.{◌≡◌, List, ℕ, ◌<◌, ◌≤◌, length};
ghost use Rattle.refusals.specs.Numbers.{refusal_code};
ghost use Rattle.state.specs.State.{machine_in, started_of};
ghost use Rattle.text.specs.Store as storing;
ghost use Rattle.text.specs.Read as reading;
ghost use Rattle.text.specs.Code as code;

use refusals::Refusal;
use state::{Started, State};
use values::{Answer, Cp15};

// The bytes behind the numbers of the form.
fn separators() -> [u8; 3085]
    ensures { result ≡ code.separators }
{
    let mut out = [44u8; 3085];
    form::end_lines(&mut out, 0, 1, 29);
    form::end_lines(&mut out, 29, 32, 11);
    form::end_lines(&mut out, 381, 512, 5);
    form::end_lines(&mut out, 2941, 8, 18);
    out
}

// Refusals 1, 3 and 4 of storing, for a memory of n bytes.
fn state_refusal(state: State, cp15: Cp15, n: usize) -> Result<(), Refusal>
    ensures { (memory bad store : List ℕ) → length memory ≡ n
        → refusal_code result ≡ code.store_state_refusal (machine_in memory bad store state cp15) }
{
    if !refusals::length_fits(n) {
        return Err(Refusal::Memory);
    }
    if !state::is_sound(state, cp15, n) {
        return Err(Refusal::State);
    }
    if state.size != n {
        return Err(Refusal::Length);
    }
    Ok(())
}

// A state stored where the slice is long enough; refusal 15 where it is not.
fn store_sound(state: State, cp15: Cp15, text: &mut [u8]) -> Result<u32, Refusal>
    requires { (state.size < 0x100000000) × (state.used < 0x100000000) }
    ensures { (memory bad store : List ℕ) → storing.stored_from text.new (code.answer_of result)
        ≡ code.stored_room (machine_in memory bad store state cp15) text.old }
{
    let entries = state.entries;
    let lines = state.lines;
    let pointers = state.pointers;
    let words = state.words;
    let slots = state.slots;
    let counts = state.counts;
    let bytes = state::unpacked(slots);
    let mut numbers = [0u32; 3085];
    numbers::put_all(
        &mut numbers,
        cp15,
        state.size,
        counts,
        state.used,
        &entries,
        &lines,
        &pointers,
        &words,
        &bytes,
    );
    let size = form::text_size(&numbers);
    if size > text.len() {
        return Err(Refusal::Room);
    }
    let behind = separators();
    form::put_numbers(text, &behind, &numbers);
    Ok(size as u32)
}

// A state stored where refusals 1, 3, 4 and 15 are not met: the text's length.
fn store_text(state: State, cp15: Cp15, memory: &[u8], text: &mut [u8]) -> Result<u32, Refusal>
    ensures { (bad store : List ℕ) → storing.stored_from text.new (code.answer_of result)
        ≡ storing.stored (machine_in memory.now bad store state cp15) text.old }
{
    state_refusal(state, cp15, memory.len())?;
    store_sound(state, cp15, text)
}

// Stores a state and a record as text at the front of a slice, whose bytes behind the text stay. It answers the text's length, or refusal 1, 3, 4 or 15,
// which changes nothing.
pub fn store(state: State, cp15: Cp15, memory: &[u8], text: &mut [u8]) -> Answer
    ensures { (bad store : List ℕ) → storing.stored_from text.new result
        ≡ storing.stored (machine_in memory.now bad store state cp15) text.old }
{
    match store_text(state, cp15, memory, text) {
        Ok(size) => Answer::Value(size),
        Err(r) => Answer::Refused(u32::from(r)),
    }
}

// A refused read: a state and a record all zeros. A number, as in Started.
fn refused(n: u32) -> Started
    ensures { (memory bad store : List ℕ) → started_of memory bad store result ≡ code.refused_by memory bad store n }
{
    Started {
        state: state::fresh(0),
        cp15: values::zero_cp15(),
        refusal: n,
    }
}

// The state and the record of numbers.
#[derive(Clone, Copy)]
pub struct Restored {
    pub state: State,
    pub cp15: Cp15,
}

// The state and the record of numbers; refusal 3 only where a number does not fit, or an entry or a line is not as in a sound state.
fn restore(ns: &[u32]) -> Result<Restored, Refusal>
    requires { length ns.now ≡ 3085 }
    ensures { code.RestoredIs ns.now result }
{
    let mut entries = [0u64; 32];
    let mut lines = [0u64; 512];
    let mut pointers = [0u32; 16];
    let mut words = [0u64; 8];
    let mut bytes = [[0u8; 16]; 8];
    let Some(head) = numbers::read_all(
        ns,
        &mut entries,
        &mut lines,
        &mut pointers,
        &mut words,
        &mut bytes,
    ) else {
        return Err(Refusal::State);
    };
    let cp15 = head.cp15;
    let counts = head.counts;
    let slots = state::packed(bytes);
    let state = State {
        size: head.size,
        counts,
        used: head.used,
        entries,
        lines,
        pointers,
        words,
        slots,
    };
    Ok(Restored { state, cp15 })
}

// The state and the record of numbers, for a memory of n bytes, or refusal 3 or 4. A Result of state and record from each step of a read to the next would
// take 17 KB more of stack, and include/sa110.h promises 48 KB for a read.
fn read_state(ns: &[u32], n: usize) -> Started
    requires { (length ns.now ≡ 3085) × (n ≤ 0x1000000) }
    ensures { (memory bad store : List ℕ) → length memory ≡ n
        → started_of memory bad store result ≡ code.read_numbers memory bad store ns.now }
{
    let r = match restore(ns) {
        Ok(r) => r,
        Err(e) => return refused(u32::from(e)),
    };
    if !state::is_sound(r.state, r.cp15, n) {
        return refused(u32::from(Refusal::State));
    }
    if r.state.size != n {
        return refused(u32::from(Refusal::Length));
    }
    Started {
        state: r.state,
        cp15: r.cp15,
        refusal: 0,
    }
}

// Reads a text back: the state and the record that it has, or refusal 1, 14, 3 or 4 with a state and a record all zeros.
pub fn read(memory: &[u8], text: &[u8]) -> Started
    ensures { (bad store : List ℕ) → started_of memory.now bad store result
        ≡ reading.read_back memory.now bad store text.now }
{
    if !refusals::length_fits(memory.len()) {
        return refused(u32::from(Refusal::Memory));
    }
    let behind = separators();
    let mut ns = [0u32; 3085];
    if !form::read_numbers(text, &behind, &mut ns) {
        return refused(u32::from(Refusal::Text));
    }
    read_state(&ns, memory.len())
}
