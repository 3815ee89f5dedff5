// The walk of the page tables: it reads memory alone.
#![tactic(auto)]

ghost use Rattle.std.specs.Prelude.{◌≡◌, ◌%◌, ◌<◌};
ghost use Rattle.walk.specs.Walk as walks;
ghost use Rattle.bus.specs.Physical.{physical};
ghost use Rattle.bus.specs.Reader.{descriptor_at};
ghost use Rattle.walk.specs.Walk.{first, second};
ghost use Rattle.walk.specs.Ranges.{Is};

use values::{Cause, Entry, PhysicalAddress, Status, VirtualAddress};

// The level 2 word: a large page, a small page, or a fault.
fn level_two(domain: u32, va: VirtualAddress, w: u32) -> Result<Entry, Cause>
    requires { domain < 16 }
    ensures { Is result (second domain va (Some w)) }
{
    let kind = w % 4;
    if kind == 1 {
        return Ok(Entry {
            valid: true,
            size: 1,
            vbase: va.0 / 0x10000 * 0x10000,
            pbase: w / 0x10000 * 0x10000,
            domain,
            aps: w / 0x10 % 0x100,
            cacheable: w / 8 % 2 == 1,
            bufferable: w / 4 % 2 == 1,
        });
    }
    if kind == 2 {
        return Ok(Entry {
            valid: true,
            size: 2,
            vbase: va.0 / 0x1000 * 0x1000,
            pbase: w / 0x1000 * 0x1000,
            domain,
            aps: w / 0x10 % 0x100,
            cacheable: w / 8 % 2 == 1,
            bufferable: w / 4 % 2 == 1,
        });
    }
    Err(Cause::new(Status::TranslationPage, domain))
}

// A second-level table: its word for the address, or a fault.
fn second_level(memory: &[u8], bad: &[u8], va: VirtualAddress, w: u32) -> Result<Entry, Cause>
    ensures { Is result (second (walks.domain_of w) va (descriptor_at (physical memory.now bad.now) (walks.second_address w va))) }
{
    let domain = w / 32 % 16;
    let at = PhysicalAddress(w / 0x400 * 0x400 + 4 * (va.0 / 0x1000 % 0x100));
    let d = bus::descriptor_of(memory, bad, at);
    match d {
        Some(v) => level_two(domain, va, v),
        None => Err(Cause::new(Status::WalkSecond, domain)),
    }
}

// The level 1 word: a second-level table, a section, or a fault.
fn level_one(memory: &[u8], bad: &[u8], va: VirtualAddress, w: u32) -> Result<Entry, Cause>
    ensures { Is result (first (physical memory.now bad.now) va (Some w)) }
{
    let kind = w % 4;
    if kind == 1 {
        return second_level(memory, bad, va, w);
    }
    if kind == 2 {
        return Ok(Entry {
            valid: true,
            size: 0,
            vbase: va.0 / 0x100000 * 0x100000,
            pbase: w / 0x100000 * 0x100000,
            domain: w / 32 % 16,
            aps: w / 0x400 % 4 * 0x55,
            cacheable: w / 8 % 2 == 1,
            bufferable: w / 4 % 2 == 1,
        });
    }
    Err(Cause::new(Status::TranslationSection, 0))
}

// The walk for a virtual address, by the table base.
pub fn walk(memory: &[u8], bad: &[u8], base: u32, va: VirtualAddress) -> Result<Entry, Cause>
    requires { base % 0x4000 ≡ 0 }
    ensures { Is result (walks.walk (physical memory.now bad.now) base va) }
{
    let at = PhysicalAddress(base + 4 * (va.0 / 0x100000));
    let d = bus::descriptor_of(memory, bad, at);
    match d {
        Some(w) => level_one(memory, bad, va, w),
        None => Err(Cause::new(Status::WalkFirst, 0)),
    }
}
