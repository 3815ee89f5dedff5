// The plain machine, the walk and the rights table for C and Rust.
#![tactic(auto)]

ghost use Rattle.std.specs.Prelude.{◌≡◌};
ghost use Rattle.plain.specs.Run.{plain_run};
ghost use Rattle.walk.specs.Ranges.{Ranged};
ghost use Rattle.access_table.specs.AccessTable.{access_table};
ghost use Rattle.host.specs.Exports as spec;

use values::{Cause, Count, Entry, Registers, VirtualAddress};

// What a run of the plain machine leaves: the five registers, the count of calls, the calls made, and refusal 1 or 0, a number, as C reads it.
#[repr(C)]
#[derive(Clone, Copy)]
pub struct PlainRan {
    pub registers: Registers,
    pub calls: Count,
    pub refusal: u32,
    pub made: usize,
}

// An entry of the rights table: 0 allowed, 1 domain fault, 2 permission fault; 255 behind its end.
pub fn sa110_right(index: u32) -> u8
    ensures { result ≡ spec.right_code index }
{
    if index < 256 {
        rights::entry(index)
    } else {
        255
    }
}

// Fills a lent array with the rights table's 256 entries, worked out from the domain values and 001's table 2-3.
pub fn sa110_rights_table(table: &mut [u8; 256])
    ensures { table.new ≡ access_table }
{
    access_table::work_out(table);
}

// A mapping as a number.
fn mapping_code(m: Result<Entry, Cause>) -> u64
    requires { Ranged m }
    ensures { result ≡ spec.mapping_code m }
{
    match m {
        Ok(e) => tlb::word_of(e),
        Err(why) => 2 * ((why.domain as u64) * 16 + (values::status_number(why.status) as u64)),
    }
}

// The walk for an address, over a memory and its map: the word of a TLB entry, which is odd, or twice the fault's domain × 16 + status.
pub fn sa110_walk(memory: &[u8], bad: &[u8], base: u32, va: u32) -> u64
    ensures { result ≡ spec.walk_code memory.now bad.now base va }
{
    let m = walk::walk(memory, bad, base / 0x4000 * 0x4000, VirtualAddress(va));
    mapping_code(m)
}

// A run of the plain machine, on a memory and its map, over a list of calls, five numbers each.
pub fn sa110_plain_run(
    memory: &mut [u8],
    bad: &[u8],
    calls: &[u32],
    answers: &mut [u64],
) -> PlainRan
    ensures { spec.plain_ran_of memory.new bad.now answers.new result
        ≡ plain_run memory.old bad.now calls.now answers.old }
{
    let r = plain::run(memory, bad, calls, answers);
    let s = r.state;
    let registers = s.registers;
    PlainRan {
        registers,
        calls: s.calls,
        refusal: r.refusal,
        made: r.made,
    }
}
