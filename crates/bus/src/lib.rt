// The lent memory as the bus sees it: which words abort, and the reader of descriptor words.
#![tactic(auto)]

ghost use Rattle.std.specs.Prelude.{true, false, List, ◌≡◌, ℕ, ◌+◌, ◌<◌, ◌≤◌};
ghost use Rattle.bus.specs.Physical as spec;
ghost use Rattle.bus.specs.Physical.{physical};
ghost use Rattle.bus.specs.Reader.{descriptor_at};

use values::PhysicalAddress;

// Whether word w of a map is bad.
#[tactic(auto, unfolding(crate::specs::Physical::is_bad))]
pub fn is_bad(bad: &[u8], w: usize) -> bool
    ensures { result ≡ spec.is_bad bad.now w }
{
    w < bad.len() && bad[w] == 1
}

// Whether the map has zeros for the four words from w on. If so, none of them is bad.
pub fn four_good(bad: &[u8], w: usize) -> bool
    requires { w < 0x4000000000000000 }
    ensures { result ≡ true → (k : ℕ) → k < 4 → spec.is_bad bad.now (w + k) ≡ false }
{
    w + 4 <= bad.len() && words::word(bad, w) == 0
}

// Whether the word of an address lies outside memory.
pub fn outside(memory: &[u8], at: PhysicalAddress) -> bool
    ensures { (bad : List ℕ) → result ≡ spec.outside (physical memory.now bad) at }
{
    memory.len() < at.0 as usize / 4 * 4 + 4
}

// Whether the word of an address aborts.
pub fn aborts(memory: &[u8], bad: &[u8], at: PhysicalAddress) -> bool
    ensures { result ≡ spec.aborts (physical memory.now bad.now) at }
{
    outside(memory, at) || is_bad(bad, at.0 as usize / 4)
}

// Whether one of the first n words of an address's line aborts.
fn aborts_within(memory: &[u8], bad: &[u8], at: PhysicalAddress, n: u32) -> bool
    requires { n ≤ 8 }
    ensures { result ≡ spec.aborts_within (physical memory.now bad.now) at n }
{
    (0..n).any(|i| aborts(memory, bad, PhysicalAddress(at.0 / 32 * 32 + i * 4)))
}

// Whether a word of an address's line, from its first up to the address's own, aborts.
pub fn wanted_aborts(memory: &[u8], bad: &[u8], at: PhysicalAddress) -> bool
    ensures { result ≡ spec.wanted_aborts (physical memory.now bad.now) at }
{
    aborts_within(memory, bad, at, at.0 / 4 % 8 + 1)
}

// Whether a word of an address's line aborts.
pub fn line_aborts(memory: &[u8], bad: &[u8], at: PhysicalAddress) -> bool
    ensures { result ≡ spec.line_aborts (physical memory.now bad.now) at }
{
    !line_good(memory, bad, at) && aborts_within(memory, bad, at, 8)
}

// Whether an address's line lies inside memory and the map has zeros for its words. If so, none of them aborts.
fn line_good(memory: &[u8], bad: &[u8], at: PhysicalAddress) -> bool
    ensures { result ≡ true → spec.line_aborts (physical memory.now bad.now) at ≡ false }
{
    let first = at.0 as usize / 32 * 8;
    if memory.len() < first * 4 + 32 {
        return false;
    }
    four_good(bad, first) && four_good(bad, first + 4)
}

// The descriptor word of a physical address, or none where it aborts.
fn descriptor_at(memory: &[u8], bad: &[u8], at: PhysicalAddress) -> Option<u32>
    ensures { result ≡ descriptor_at (physical memory.now bad.now) at }
{
    if aborts(memory, bad, at) {
        None
    } else {
        Some(words::word(memory, at.0 as usize / 4 * 4))
    }
}

// The reader over the lent memory: it holds the slices of memory and map.
#[derive(Clone, Copy)]
pub struct Bus<'a> {
    pub memory: &'a [u8],
    pub bad: &'a [u8],
}

// The descriptor word of a physical address, of a reader.
fn bus_descriptor<'a>(bus: Bus<'a>, at: PhysicalAddress) -> Option<u32>
    ensures { result ≡ descriptor_at (physical bus.entry.memory.now bus.entry.bad.now) at }
{
    descriptor_at(bus.memory, bus.bad, at)
}

// The descriptor word of a physical address, through a reader over the slices: what the walk calls.
pub fn descriptor_of(memory: &[u8], bad: &[u8], at: PhysicalAddress) -> Option<u32>
    ensures { result ≡ descriptor_at (physical memory.now bad.now) at }
{
    bus_descriptor(Bus { memory, bad }, at)
}
