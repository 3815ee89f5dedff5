// What the lent lists do not hold of the library's machine, and how each part of it changes.
#![tactic(auto)]

ghost use Rattle.std.specs.Prelude.{◌≡◌, ◌<◌, ◌≤◌, ◌+◌};
ghost use Rattle.values.specs.Counts as counts;
ghost use Rattle.values.specs.Counts.{count_limit};
ghost use Rattle.values.specs.Registers.{cp15_from};
ghost use Rattle.buffer.specs.Buffer.{drained};
ghost use Rattle.buffer.specs.Packing.{backing_of};
ghost use Rattle.buffer.specs.Ranges.{Fits, Left};
ghost use Rattle.machine.specs.Scalars as spec;

use values::{Answer, Count, Counts, Cp15, Registers};

// The parts of the state that are no list: the record, the counts, the number of buffer entries.
#[derive(Clone, Copy)]
pub struct Scalars {
    pub cp15: Cp15,
    pub counts: Counts,
    pub used: usize,
}

// References to the lent lists of the data side: memory and its map, the buffer's words and bytes, the Dcache's lines, pointers and store. Slices, and the
// bytes as the array that document 01 names: the length of a slice is known after a call that takes it. The crates below this one are lent slices: with
// the struct there, fills take 2.6 percent more instructions.
#[derive(Drop)]
pub struct Lent<'a, 'b> {
    pub memory: &'a mut [u8],
    pub bad: &'b [u8],
    pub words: &'a mut [u64],
    pub bytes: &'a mut [[u8; 16]; 8],
    pub lines: &'a mut [u64],
    pub pointers: &'a mut [u32],
    pub store: &'a mut [u8],
}

// The scalars and an answer.
#[derive(Clone, Copy)]
pub struct Outcome {
    pub scalars: Scalars,
    pub answer: Answer,
}

// The scalars of a record, counts and a number of buffer entries.
pub fn scalars_of(cp15: Cp15, counts: Counts, used: usize) -> Scalars
    ensures { result ≡ spec.scalars_from cp15 counts used }
{
    Scalars { cp15, counts, used }
}

// The scalars of these parts, made number by number, so that a compiler keeps each by itself and packs no two into one.
fn of_numbers(r: Registers, pointer: u32, c: Counts, used: usize) -> Scalars
    ensures { result ≡ spec.scalars_from (cp15_from r pointer) c used }
{
    let registers = values::registers_of(r.control, r.base, r.domains, r.fsr, r.far);
    let counts = values::counts_of(c.calls, c.misses, c.hits, c.fills, c.halves);
    scalars_of(values::cp15_of(registers, pointer), counts, used)
}

// These counts.
fn with_counts(s: Scalars, c: Counts) -> Scalars
    ensures { result ≡ spec.with_counts s c }
{
    of_numbers(s.cp15.registers, s.cp15.pointer, c, s.used)
}

// One more call. The functions for the five counts differ in a field alone; a field is no parameter, and each contract names its own definition.
pub fn counted(s: Scalars) -> Scalars
    requires { s.counts.calls < count_limit }
    ensures { result ≡ spec.with_counts s (counts.counted s.counts) }
{
    let mut c = s.counts;
    c.calls += 1;
    with_counts(s, c)
}

// One more TLB miss.
pub fn missed(s: Scalars) -> Scalars
    requires { s.counts.misses < count_limit }
    ensures { result ≡ spec.with_counts s (counts.missed s.counts) }
{
    let mut c = s.counts;
    c.misses += 1;
    with_counts(s, c)
}

// One more Dcache hit.
pub fn hit(s: Scalars) -> Scalars
    requires { s.counts.hits < count_limit }
    ensures { result ≡ spec.with_counts s (counts.hit s.counts) }
{
    let mut c = s.counts;
    c.hits += 1;
    with_counts(s, c)
}

// One more line fill.
pub fn filled(s: Scalars) -> Scalars
    requires { s.counts.fills < count_limit }
    ensures { result ≡ spec.with_counts s (counts.filled s.counts) }
{
    let mut c = s.counts;
    c.fills += 1;
    with_counts(s, c)
}

// So many more halves sent out.
pub fn sent(s: Scalars, halves: Count) -> Scalars
    requires { s.counts.halves + halves ≤ count_limit }
    ensures { result ≡ spec.with_counts s (counts.sent s.counts halves) }
{
    let mut c = s.counts;
    c.halves += halves;
    with_counts(s, c)
}

// So many buffer entries.
pub fn with_used(s: Scalars, used: usize) -> Scalars
    ensures { result ≡ spec.with_used s used }
{
    of_numbers(s.cp15.registers, s.cp15.pointer, s.counts, used)
}

// These registers.
pub fn with_registers(s: Scalars, r: Registers) -> Scalars
    ensures { result ≡ spec.with_registers s r }
{
    of_numbers(r, s.cp15.pointer, s.counts, s.used)
}

// This TLB pointer.
pub fn with_pointer(s: Scalars, pointer: u32) -> Scalars
    ensures { result ≡ spec.with_pointer s pointer }
{
    of_numbers(s.cp15.registers, pointer, s.counts, s.used)
}

// All entries leave. Without entries no byte is copied.
fn drain_entries(
    memory: &mut [u8],
    bad: &[u8],
    words: &mut [u64],
    bytes: &mut [[u8; 16]; 8],
    used: usize,
)
    requires { Fits memory.old words.old bytes.old used }
    ensures { Left memory.new bad.now words.new bytes.new 0
        (drained (backing_of memory.old bad.now words.old bytes.old used)) }
{
    if used != 0 {
        *bytes = buffer::drain(memory, bad, words, *bytes, used);
    }
}

// The buffer is drained.
pub fn drain(
    memory: &mut [u8],
    bad: &[u8],
    words: &mut [u64],
    bytes: &mut [[u8; 16]; 8],
    s: Scalars,
) -> Scalars
    requires { Fits memory.old words.old bytes.old s.used }
    ensures { (result ≡ spec.with_used s 0) × Left memory.new bad.now words.new bytes.new 0
        (drained (backing_of memory.old bad.now words.old bytes.old s.used)) }
{
    drain_entries(memory, bad, words, bytes, s.used);
    with_used(s, 0)
}
