// Alignment, translation, rights and faults: what the library's machine and the plain machine share.
#![tactic(auto)]

ghost use Rattle.std.specs.Prelude.{◌≡◌, ◌<◌, ◌%◌, ◌^◌, true};
ghost use Rattle.walk.specs.Ranges as ranges;
ghost use Rattle.words.specs.Words.{is_width};
ghost use Rattle.rights.specs.Rights.{rights_table};
ghost use Rattle.walk.specs.Ranges.{InRange};
ghost use Rattle.words.specs.Signed as signs;
ghost use Rattle.translation.specs.Alignment as aligned;
ghost use Rattle.translation.specs.Translation as spec;
ghost use Rattle.translation.specs.Faults as faults;
ghost use Rattle.bus.specs.Physical.{physical};
ghost use Rattle.translation.specs.Ranges.{Ranged, Is, CheckedIs};

use values::{
    Access, Answer, Cause, Entry, Fault, Kind, PhysicalAddress, Registers, Status, VirtualAddress,
};

// How an address is translated: flat, by a TLB entry, or by a walk that found a mapping.
#[derive(Clone, Copy)]
pub enum Translation {
    Flat,
    Held(Entry),
    Walked(Entry),
}

// Where an access whose translation and rights pass goes, and what the page says of it. `page` is false for a section and for flat.
#[derive(Clone, Copy)]
pub struct Place {
    pub address: PhysicalAddress,
    pub page: bool,
    pub domain: u32,
    pub cacheable: bool,
    pub bufferable: bool,
}

// What is decided of an access before anything changes: which mapping serves, and where the access goes if alignment, translation and rights pass, or the
// cause of its fault.
#[derive(Clone, Copy)]
pub struct Decision {
    pub mapping: Result<Translation, Cause>,
    pub checked: Result<Place, Cause>,
}

// The low bits of an address, for a width of 1, 2 or 4: without a branch.
fn low_bits(width: u32, a: u32) -> u32
    requires { is_width width ≡ true }
    ensures { result ≡ aligned.low_bits width a }
{
    a & (width - 1)
}

// Whether an access is a word not at a multiple of 4 or a halfword at an odd address.
fn is_misaligned(a: Access) -> bool
    requires { is_width a.width ≡ true }
    ensures { result ≡ aligned.misaligned a }
{
    let va = a.address;
    low_bits(a.width, va.0) != 0
}

// Whether an access faults by its alignment.
pub fn faults_alignment(r: Registers, a: Access) -> bool
    requires { is_width a.width ≡ true }
    ensures { result ≡ aligned.alignment_faults r a }
{
    values::alignment(r) && is_misaligned(a)
}

// The address with its low bits cleared.
pub fn cleared(a: Access) -> VirtualAddress
    requires { is_width a.width ≡ true }
    ensures { result ≡ aligned.cleared a }
{
    let va = a.address;
    VirtualAddress(va.0 - low_bits(a.width, va.0))
}

// A walk's result as a translation.
pub fn of_walk(m: Result<Entry, Cause>) -> Result<Translation, Cause>
    requires { ranges.Ranged m }
    ensures { Is result (spec.of_walk m) }
{
    Ok(Translation::Walked(m?))
}

// The plain machine's translation: it walks for every access.
pub fn walked_only(
    memory: &[u8],
    bad: &[u8],
    r: Registers,
    va: VirtualAddress,
) -> Result<Translation, Cause>
    requires { r.base % 0x4000 ≡ 0 }
    ensures { Is result (spec.walked_only r (physical memory.now bad.now) va) }
{
    if values::mmu(r) {
        of_walk(walk::walk(memory, bad, r.base, va))
    } else {
        Ok(Translation::Flat)
    }
}

// The place of a mapping.
fn place_of(e: Entry, va: VirtualAddress) -> Place
    requires { InRange e }
    ensures { result ≡ spec.place_of e va }
{
    Place {
        address: tlb::translated(e, va),
        page: e.size != 0,
        domain: e.domain,
        cacheable: e.cacheable,
        bufferable: e.bufferable,
    }
}

// The place of an access with M clear.
fn flat_place(a: Access) -> Place
    requires { is_width a.width ≡ true }
    ensures { result ≡ spec.flat_place (aligned.cleared a) }
{
    let va = cleared(a);
    Place {
        address: PhysicalAddress(va.0),
        page: false,
        domain: 0,
        cacheable: false,
        bufferable: false,
    }
}

// What an entry of the rights table makes of an access. The entry is a byte of the table that document 01 names.
fn judged(right: u8, e: Entry, va: VirtualAddress) -> Result<Place, Cause>
    requires { InRange e }
    ensures { CheckedIs va result (spec.judged right e va) }
{
    if right == 0 {
        return Ok(place_of(e, va));
    }
    if right == 1 {
        if e.size != 0 {
            return Err(Cause::new(Status::DomainPage, e.domain));
        }
        return Err(Cause::new(Status::DomainSection, e.domain));
    }
    if e.size != 0 {
        return Err(Cause::new(Status::PermissionPage, e.domain));
    }
    Err(Cause::new(Status::PermissionSection, e.domain))
}

// Whether a mapping lets an access pass.
fn check_by(table: &[u8; 256], r: Registers, a: Access, e: Entry) -> Result<Place, Cause>
    requires { (table.now ≡ rights_table) × InRange e × (is_width a.width ≡ true) }
    ensures { CheckedIs (aligned.cleared a) result (spec.checked_by r a e) }
{
    let va = cleared(a);
    let k = a.kind;
    let value = rights::domain_value(r.domains, e.domain);
    let ap = tlb::ap_of(e, va);
    let right = rights::right(
        table,
        value,
        ap,
        r.control,
        a.privileged,
        values::is_store(k),
    );
    judged(right, e, va)
}

// Whether a translation lets an access pass. In its two callers, one in each machine, an access takes about a hundred instructions less than by a call.
#[inline(always)]
pub fn check(
    table: &[u8; 256],
    r: Registers,
    a: Access,
    t: Result<Translation, Cause>,
) -> Result<Place, Cause>
    requires { (table.now ≡ rights_table) × Ranged t × (is_width a.width ≡ true) }
    ensures { CheckedIs (aligned.cleared a) result (spec.checked r a t) }
{
    match t? {
        Translation::Flat => Ok(flat_place(a)),
        Translation::Held(e) | Translation::Walked(e) => check_by(table, r, a, e),
    }
}

// Whether a load that misses fills a line.
pub fn fills(r: Registers, p: Place) -> bool
    ensures { result ≡ faults.fills r p }
{
    values::mmu(r) && values::dcache(r) && p.cacheable
}

// Whether a store that misses is buffered.
pub fn buffers(r: Registers, p: Place) -> bool
    ensures { result ≡ faults.buffers r p }
{
    values::mmu(r) && values::write_buffer(r) && (p.cacheable || p.bufferable)
}

// The status of a line fill outside memory.
pub fn fill_status(p: Place) -> Status
    ensures { result ≡ faults.fill_status p }
{
    if p.page {
        Status::FillPage
    } else {
        Status::FillSection
    }
}

// The status of any other access outside memory.
pub fn other_status(p: Place) -> Status
    ensures { result ≡ faults.other_status p }
{
    if p.page {
        Status::OtherPage
    } else {
        Status::OtherSection
    }
}

// The registers with FSR and FAR set by a fault.
pub fn fault_set(r: Registers, f: Fault) -> Registers
    requires { f.domain < 16 }
    ensures { result ≡ faults.fault_set r f }
{
    let s = f.status;
    let va = f.address;
    let mut out = r;
    out.fsr = f.domain * 16 + values::status_number(s);
    out.far = va.0;
    out
}

// What an access answers that loads a value.
pub fn load_answer(k: Kind, width: u32, value: u32) -> Answer
    requires { (is_width width ≡ true) × (value < 256 ^ width) }
    ensures { result ≡ signs.load_answer k width value }
{
    match k {
        Kind::Load => Answer::Value(value),
        Kind::SignedLoad => Answer::Signed(words::signed(width, value)),
        Kind::Store(x) => Answer::Value(value),
        Kind::Swap(x) => Answer::Value(value),
    }
}
