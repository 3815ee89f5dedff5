// The TLB: 32 entries, each one word, in a lent slice.
#![tactic(auto)]

ghost use Rattle.std.specs.Prelude.{◌≡◌, ℕ, ◌<◌, length, get_or};
ghost use Rattle.tlb.specs.Tlb as spec;
ghost use Rattle.tlb.specs.Tlb.{placed, flushed, dropped, stepped};
ghost use Rattle.tlb.specs.Packing.{entry_of, word_of, entries_of};
ghost use Rattle.tlb.specs.Keyed.{key_of, keys_of};
ghost use Rattle.walk.specs.Ranges.{InRange};

use values::{Entry, PhysicalAddress, VirtualAddress};

// The entry that a word stands for.
pub fn entry_of(w: u64) -> Entry
    ensures { result ≡ entry_of w }
{
    Entry {
        valid: w % 2 == 1,
        size: (w / 8 % 32) as u32,
        vbase: (w / 0x100000000000 * 0x1000) as u32,
        pbase: (w / 0x1000000 % 0x100000 * 0x1000) as u32,
        domain: (w / 0x100 % 0x100) as u32,
        aps: (w / 0x10000 % 0x100) as u32,
        cacheable: w / 2 % 2 == 1,
        bufferable: w / 4 % 2 == 1,
    }
}

// The word of an entry.
pub fn word_of(e: Entry) -> u64
    requires { InRange e }
    ensures { result ≡ word_of e }
{
    let bases = (e.pbase / 0x1000) as u64 + 0x100000 * ((e.vbase / 0x1000) as u64);
    let high = e.domain as u64 + 0x100 * (e.aps as u64 + 0x100 * bases);
    let valid = values::bit_number(e.valid) as u64;
    let cacheable = values::bit_number(e.cacheable) as u64;
    let bufferable = values::bit_number(e.bufferable) as u64;
    valid + 2 * (cacheable + 2 * (bufferable + 2 * (e.size as u64 + 32 * high)))
}

// Whether the entry that a word stands for covers an address.
fn covers(w: u64, va: VirtualAddress) -> bool
    ensures { result ≡ spec.covers va (entry_of w) }
{
    if w % 2 == 0 {
        return false;
    }
    let size = w / 8 % 32;
    let vbase = (w / 0x100000000000 * 0x1000) as u32;
    if size == 0 {
        return va.0 / 0x100000 * 0x100000 == vbase;
    }
    if size == 1 {
        return va.0 / 0x10000 * 0x10000 == vbase;
    }
    va.0 / 0x1000 * 0x1000 == vbase
}

// The bits of a word that say what it covers: whether it is valid, its size, its virtual base.
fn key(w: u64) -> u64
    ensures { result ≡ key_of w }
{
    w / 0x100000000000 * 0x100000000000 + w / 8 % 32 * 8 + w % 2
}

// The keys of the section, the large page and the small page that an address lies in.
#[derive(Clone, Copy)]
pub struct Keys {
    pub section: u64,
    pub large: u64,
    pub small: u64,
}

fn keys_of(va: VirtualAddress) -> Keys
    ensures { result ≡ keys_of va }
{
    let page = (va.0 / 0x1000) as u64;
    Keys {
        section: page / 0x100 * 0x10000000000000 + 1,
        large: page / 16 * 0x1000000000000 + 9,
        small: page * 0x100000000000 + 17,
    }
}

// Whether a word has one of the keys.
fn has_key(w: u64, k: Keys) -> bool
    ensures { (va : VirtualAddress) → k ≡ keys_of va → (entry_of w).size < 3 → result ≡ spec.covers va (entry_of w) }
{
    let n = key(w);
    if n == k.section {
        return true;
    }
    if n == k.small {
        return true;
    }
    if n == k.large {
        return true;
    }
    false
}

// The lowest-numbered entry that covers an address.
pub fn lookup(entries: &[u64], va: VirtualAddress) -> Option<usize>
    requires { (length entries.now ≡ 32) × ((i : ℕ) → i < 32 → InRange (entry_of (get_or entries.now i 0))) }
    ensures { result ≡ spec.lookup (entries_of entries.now) va }
{
    let k = keys_of(va);
    for i in 0..32 {
        if has_key(entries[i], k) {
            return Some(i);
        }
    }
    None
}

// The physical address that an entry gives.
pub fn translated(e: Entry, va: VirtualAddress) -> PhysicalAddress
    requires { InRange e }
    ensures { result ≡ spec.translated e va }
{
    if e.size == 0 {
        return PhysicalAddress(e.pbase + va.0 % 0x100000);
    }
    if e.size == 1 {
        return PhysicalAddress(e.pbase + va.0 % 0x10000);
    }
    PhysicalAddress(e.pbase + va.0 % 0x1000)
}

// The access permission that an entry has for an address.
pub fn ap_of(e: Entry, va: VirtualAddress) -> u32
    ensures { (result ≡ spec.ap_of e va) × (result < 4) }
{
    if e.size == 0 {
        return e.aps % 4;
    }
    if e.size == 1 {
        return (e.aps >> (2 * (va.0 / 0x4000 % 4))) % 4;
    }
    (e.aps >> (2 * (va.0 / 0x400 % 4))) % 4
}

// A mapping goes to the place of the pointer.
pub fn place(entries: &mut [u64], pointer: u32, e: Entry)
    requires { (length entries.old ≡ 32) × (pointer < 32) × InRange e }
    ensures { entries_of entries.new ≡ placed (entries_of entries.old) pointer e }
{
    entries[pointer as usize] = word_of(e);
}

// The pointer's next place.
pub fn next(pointer: u32) -> u32
    requires { pointer < 32 }
    ensures { (result ≡ stepped pointer) × (result < 32) }
{
    (pointer + 1) % 32
}

// All entries are emptied.
pub fn flush(entries: &mut [u64])
    requires { length entries.old ≡ 32 }
    ensures { entries_of entries.new ≡ flushed }
{
    entries.fill(0);
}

// The word of an entry, or 0 where the entry covers the address.
fn kept(w: u64, va: VirtualAddress) -> u64
    ensures { entry_of result ≡ spec.kept_of va (entry_of w) }
{
    if covers(w, va) { 0 } else { w }
}

// Every entry that covers the address is emptied.
pub fn drop_covering(entries: &mut [u64], va: VirtualAddress)
    requires { length entries.old ≡ 32 }
    ensures { entries_of entries.new ≡ dropped (entries_of entries.old) va }
{
    for w in entries {
        *w = kept(*w, va);
    }
}
