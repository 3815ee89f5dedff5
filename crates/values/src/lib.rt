// The shared types of document 01: addresses, faults, answers, registers, counts, calls, and the places of TLB, Dcache and write buffer.
#![tactic(auto)]

ghost use Rattle.std.specs.Prelude.{◌≡◌, ◌<◌};
ghost use Rattle.values.specs.Bits.{number};
ghost use Rattle.values.specs.Answers.{status_of};
ghost use Rattle.values.specs.Causes.{cause_from};
ghost use Rattle.values.specs.Control as spec;
ghost use Rattle.values.specs.Kinds.{is_store, stored_value, is_swap};
ghost use Rattle.values.specs.Registers.{registers_from, zero_registers, cp15_from, zero_cp15};
ghost use Rattle.values.specs.Counts.{counts_from, zero_counts};

// A virtual address, 32 bits.
#[derive(Clone, Copy)]
pub struct VirtualAddress(pub u32);

// A physical address, 32 bits. Only translation and the flat rule make one of a virtual address.
#[derive(Clone, Copy)]
pub struct PhysicalAddress(pub u32);

// The status of a fault, each with its number. The second of each pair is for pages.
#[derive(Clone, Copy)]
pub enum Status {
    Alignment = 1,
    WalkFirst = 12,
    WalkSecond = 14,
    TranslationSection = 5,
    TranslationPage = 7,
    DomainSection = 9,
    DomainPage = 11,
    PermissionSection = 13,
    PermissionPage = 15,
    FillSection = 4,
    FillPage = 6,
    OtherSection = 8,
    OtherPage = 10,
}

// A fault: its status, its domain, and the virtual address given.
#[derive(Clone, Copy)]
pub struct Fault {
    pub status: Status,
    pub domain: u32,
    pub address: VirtualAddress,
}

// What a call answers: a value, a signed value, a fault, or the number of its refusal. Refused holds a number: document 01 names this form, and C reads it.
#[derive(Clone, Copy)]
pub enum Answer {
    Value(u32),
    Signed(i32),
    Fault(Fault),
    Refused(u32),
}

// The plain five registers: 1 control, 2 table base, 3 domain values, 5 FSR, 6 FAR.
#[repr(C)]
#[derive(Clone, Copy)]
pub struct Registers {
    pub control: u32,
    pub base: u32,
    pub domains: u32,
    pub fsr: u32,
    pub far: u32,
}

// The small record: the plain five registers and the TLB pointer.
#[repr(C)]
#[derive(Clone, Copy)]
pub struct Cp15 {
    pub registers: Registers,
    pub pointer: u32,
}

// A count, and the count of calls at which refusal 5 begins. No count is above it.
pub type Count = u32;

pub const COUNT_LIMIT: Count = 0xFFFFFFFF;

// The five counts: calls, TLB misses, Dcache hits, line fills, halves sent out.
#[repr(C)]
#[derive(Clone, Copy)]
pub struct Counts {
    pub calls: Count,
    pub misses: Count,
    pub hits: Count,
    pub fills: Count,
    pub halves: Count,
}

// What an access does; a store and a swap carry the value that they store.
#[derive(Clone, Copy)]
pub enum Kind {
    Load,
    SignedLoad,
    Store(u32),
    Swap(u32),
}

// A data access: what it does, its mode, its width in bytes, its virtual address.
#[derive(Clone, Copy)]
pub struct Access {
    pub kind: Kind,
    pub privileged: bool,
    pub width: u32,
    pub address: VirtualAddress,
}

// A CP15 call: its mode, the register, and opcode 2 and CRm, which only writes of registers 7 and 8 heed.
#[derive(Clone, Copy)]
pub struct Transfer {
    pub privileged: bool,
    pub register: u32,
    pub opcode: u32,
    pub crm: u32,
}

// A call of the library. A CP15 write carries its value.
#[derive(Clone, Copy)]
pub enum Call {
    Access(Access),
    Read(Transfer),
    Write(Transfer, u32),
}

// A TLB entry: size 0 section, 1 large page, 2 small page; AP0 to AP3 in `aps`, two bits each, AP0 lowest. The size is a number: a word of an unsound
// state may hold a size above 2, which refusal 3 tests and a text stores.
#[derive(Clone, Copy)]
pub struct Entry {
    pub valid: bool,
    pub size: u32,
    pub vbase: u32,
    pub pbase: u32,
    pub domain: u32,
    pub aps: u32,
    pub cacheable: bool,
    pub bufferable: bool,
}

// A Dcache line: its virtual tag, its physical line number, and a dirty bit for each half.
#[derive(Clone, Copy)]
pub struct Line {
    pub valid: bool,
    pub tag: u32,
    pub frame: u32,
    pub low: bool,
    pub high: bool,
}

// A write buffer entry: its block number, its 16-bit mask, its bytes.
#[derive(Clone, Copy)]
pub struct Slot {
    pub block: u32,
    pub mask: u32,
    pub bytes: [u8; 16],
}

// Why an access is not made: the status and the domain of its fault. The fault has the access's address too.
#[derive(Clone, Copy)]
pub struct Cause {
    pub status: Status,
    pub domain: u32,
}

impl Cause {
    // The cause of a status and a domain.
    pub fn new(status: Status, domain: u32) -> Cause
        ensures { result ≡ cause_from status domain }
    {
        Cause { status, domain }
    }
}

// A bit as a number.
pub fn bit_number(b: bool) -> u32
    ensures { (result ≡ number b) × (result < 2) }
{
    b as u32
}

// The number of a status.
pub fn status_number(s: Status) -> u32
    ensures { (result ≡ status_of s) × (result < 16) }
{
    s as u32
}

// Whether an access stores.
pub fn is_store(k: Kind) -> bool
    ensures { result ≡ is_store k }
{
    matches!(k, Kind::Store(_) | Kind::Swap(_))
}

// The value that an access stores, 0 where it stores none.
pub fn stored_value(k: Kind) -> u32
    ensures { result ≡ stored_value k }
{
    match k {
        Kind::Load | Kind::SignedLoad => 0,
        Kind::Store(v) | Kind::Swap(v) => v,
    }
}

// Whether an access swaps.
pub fn is_swap(k: Kind) -> bool
    ensures { result ≡ is_swap k }
{
    matches!(k, Kind::Swap(_))
}

// Registers of zeros.
pub fn zero_registers() -> Registers
    ensures { result ≡ zero_registers }
{
    Registers {
        control: 0,
        base: 0,
        domains: 0,
        fsr: 0,
        far: 0,
    }
}

// A record of zeros.
pub fn zero_cp15() -> Cp15
    ensures { result ≡ zero_cp15 }
{
    Cp15 {
        registers: zero_registers(),
        pointer: 0,
    }
}

// Counts of zero.
pub fn zero_counts() -> Counts
    ensures { result ≡ zero_counts }
{
    Counts {
        calls: 0,
        misses: 0,
        hits: 0,
        fills: 0,
        halves: 0,
    }
}

// Registers of these numbers.
pub fn registers_of(control: u32, base: u32, domains: u32, fsr: u32, far: u32) -> Registers
    ensures { result ≡ registers_from control base domains fsr far }
{
    Registers {
        control,
        base,
        domains,
        fsr,
        far,
    }
}

// A record of registers and the TLB pointer.
pub fn cp15_of(registers: Registers, pointer: u32) -> Cp15
    ensures { result ≡ cp15_from registers pointer }
{
    Cp15 { registers, pointer }
}

// Counts of these numbers.
pub fn counts_of(calls: Count, misses: Count, hits: Count, fills: Count, halves: Count) -> Counts
    ensures { result ≡ counts_from calls misses hits fills halves }
{
    Counts {
        calls,
        misses,
        hits,
        fills,
        halves,
    }
}

// Control bit M: the MMU is enabled.
pub fn mmu(r: Registers) -> bool
    ensures { result ≡ spec.mmu r }
{
    r.control / 1 % 2 == 1
}

// Control bit A: alignment is checked.
pub fn alignment(r: Registers) -> bool
    ensures { result ≡ spec.alignment r }
{
    r.control / 2 % 2 == 1
}

// Control bit C: the Dcache is enabled.
pub fn dcache(r: Registers) -> bool
    ensures { result ≡ spec.dcache r }
{
    r.control / 4 % 2 == 1
}

// Control bit W: the write buffer is enabled.
pub fn write_buffer(r: Registers) -> bool
    ensures { result ≡ spec.write_buffer r }
{
    r.control / 8 % 2 == 1
}
