// A look: the 32 bytes of a virtual address's line.
#![tactic(auto)]

ghost use Rattle.std.specs.Prelude.{◌≡◌, cond, ◌≤◌, ◌+◌, ◌*◌, ◌%◌, length};
ghost use Rattle.values.specs.Addresses.{flat};
ghost use Rattle.values.specs.Control.{mmu};
ghost use Rattle.bus.specs.Physical.{physical};
ghost use Rattle.walk.specs.Walk.{walk};
ghost use Rattle.walk.specs.Ranges.{Ranged};
ghost use Rattle.state.specs.State.{machine_in};
ghost use Rattle.look.specs.Look as looks;

use state::State;
use values::{Cause, Cp15, Entry, PhysicalAddress, Registers, VirtualAddress};

// What a look shows: line i of the cache store, line i of memory, or an empty part.
#[derive(Clone, Copy)]
pub enum Part {
    OfStore(usize),
    OfMemory(usize),
    Empty,
}

// The line of a physical address in a memory of n bytes, or an empty part outside.
fn memory_line(n: usize, pa: PhysicalAddress) -> Part
    ensures { result ≡ looks.memory_line n pa }
{
    if (pa.0 as usize) < n {
        return Part::OfMemory((pa.0 / 32) as usize);
    }
    Part::Empty
}

// The line that a mapping gives, or an empty part.
fn mapped_line(n: usize, va: VirtualAddress, m: Result<Entry, Cause>) -> Part
    requires { Ranged m }
    ensures { result ≡ looks.walked_line n va m }
{
    match m {
        Ok(e) => memory_line(n, tlb::translated(e, va)),
        Err(_) => Part::Empty,
    }
}

// The line of a virtual address in memory: by a walk past the TLB, or flat.
fn uncached_line(memory: &[u8], bad: &[u8], r: Registers, va: VirtualAddress) -> Part
    requires { r.base % 0x4000 ≡ 0 }
    ensures { result ≡ cond (mmu r) (looks.walked_line (length memory.now) va (walk (physical memory.now bad.now) r.base va))
        (looks.memory_line (length memory.now) (flat va)) }
{
    if values::mmu(r) {
        let m = walk::walk(memory, bad, r.base, va);
        return mapped_line(memory.len(), va, m);
    }
    memory_line(memory.len(), PhysicalAddress(va.0))
}

// The part that a look shows.
pub fn shown(
    state: State,
    cp15: Cp15,
    memory: &[u8],
    bad: &[u8],
    store: &[u8],
    va: VirtualAddress,
) -> Part
    ensures { result ≡ looks.shown (machine_in memory.now bad.now store.now state cp15) va }
{
    if state::state_refusal(state, cp15, memory, bad, store).is_err() {
        return Part::Empty;
    }
    let lines = state.lines;
    let registers = cp15.registers;
    let found = cache::find(&lines, va);
    match found {
        Some(i) => Part::OfStore(i),
        None => uncached_line(memory, bad, registers, va),
    }
}

// The 32 bytes of line i of a list of bytes.
fn line_part(bytes: &[u8], i: usize) -> &[u8]
    requires { i * 32 + 32 ≤ length bytes.now }
    ensures { result.now ≡ looks.line_bytes bytes.now i }
{
    &bytes[i * 32..i * 32 + 32]
}

// The 32 bytes of a virtual address's line: a part of the cache store, a part of memory, or an empty part.
pub fn look<'a>(
    state: State,
    cp15: Cp15,
    memory: &'a [u8],
    bad: &[u8],
    store: &'a [u8],
    va: VirtualAddress,
) -> &'a [u8]
    ensures { result.now ≡ looks.look (machine_in memory.now bad.now store.now state cp15) va }
{
    let place = shown(state, cp15, memory, bad, store, va);
    match place {
        Part::OfStore(i) => line_part(store, i),
        Part::OfMemory(i) => line_part(memory, i),
        Part::Empty => &store[0..0],
    }
}
