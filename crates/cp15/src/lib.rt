// CP15 calls on the library's machine: register reads and writes, and the operations of registers 7 and 8.
#![tactic(auto)]

ghost use Rattle.std.specs.Prelude.{◌≡◌, ◌||◌, List, ℕ, ◌<◌, length};
ghost use Rattle.cache.specs.Packing.{lines_of};
ghost use Rattle.cache.specs.Dcache as dcache;
ghost use Rattle.registers.specs.Pairs as pairs;
ghost use Rattle.machine.specs.Machine.{Machine};
ghost use Rattle.machine.specs.Lists.{Lists, lists, machine_of, stepped_of, Turns};
ghost use Rattle.machine.specs.Ready.{CleanReady};
ghost use Rattle.cp15.specs.Operations as spec;

use machine::{Outcome, Scalars};
use values::{Answer, Transfer, VirtualAddress};

// A register read.
pub fn read(s: Scalars, t: Transfer) -> Outcome
    requires { s.cp15.registers.control < 0x2000 }
    ensures { (l : Lists) (entries : List ℕ) (size : ℕ) → stepped_of l entries size result ≡ spec.read (machine_of l entries s size) t }
{
    let r = s.cp15.registers;
    Outcome {
        scalars: s,
        answer: Answer::Value(registers::read(r, t.register)),
    }
}

// Whether the pair flushes a whole cache or TLB.
fn is_flush(t: Transfer) -> bool
    ensures { result ≡ (pairs.is_pair t 0 7 || pairs.is_pair t 0 6) }
{
    if registers::is_pair(t, 0, 7) {
        return true;
    }
    registers::is_pair(t, 0, 6)
}

// The line of a virtual address is emptied, if it is held.
fn flush_line(lines: &mut [u64], va: VirtualAddress)
    requires { (length lines.old ≡ 512) × (va.0 < 0x100000000) }
    ensures { (pointers store : List ℕ) → dcache.dcache_from (lines_of lines.new) pointers store
        ≡ dcache.line_flushed (dcache.dcache_from (lines_of lines.old) pointers store) va }
{
    let found = cache::find(lines, va);
    match found {
        Some(i) => {
            cache::empty_line(lines, i);
        },
        None => {},
    }
}

// The line of a virtual address is cleaned, if it is held.
fn clean(
    memory: &mut [u8],
    bad: &[u8],
    words: &mut [u64],
    bytes: &mut [[u8; 16]; 8],
    lines: &mut [u64],
    store: &[u8],
    s: Scalars,
    va: VirtualAddress,
) -> Scalars
    requires { (va.0 < 0x100000000) × CleanReady memory.old words.old bytes.old lines.old store.now s }
    ensures { (pointers : List ℕ)
        → Turns (lists memory.old bad.now words.old bytes.old lines.old pointers
        store.now) s
        (lists memory.new bad.now words.new bytes.new lines.new pointers store.now) result
        (λ (m : Machine). spec.cleaned_line m va) }
{
    let found = cache::find(lines, va);
    match found {
        Some(i) => {
            let n = cleans::clean_line(memory, bad, words, bytes, s.used, lines, store, i);
            machine::with_used(machine::sent(s, n.halves), n.used)
        },
        None => s,
    }
}

// The operations of register 7.
fn operate_seven(
    memory: &mut [u8],
    bad: &[u8],
    words: &mut [u64],
    bytes: &mut [[u8; 16]; 8],
    lines: &mut [u64],
    store: &[u8],
    s: Scalars,
    t: Transfer,
    va: VirtualAddress,
) -> Scalars
    requires { (t.register ≡ 7) × (va.0 < 0x100000000) × CleanReady memory.old words.old bytes.old lines.old store.now s }
    ensures { (pointers : List ℕ)
        → Turns (lists memory.old bad.now words.old bytes.old lines.old pointers
        store.now) s
        (lists memory.new bad.now words.new bytes.new lines.new pointers store.now) result
        (λ (m : Machine). spec.operated m t va) }
{
    if is_flush(t) {
        cache::flush(lines);
        return s;
    }
    if registers::is_pair(t, 1, 6) {
        flush_line(lines, va);
        return s;
    }
    if registers::is_pair(t, 1, 10) {
        return clean(memory, bad, words, bytes, lines, store, s, va);
    }
    if registers::is_pair(t, 4, 10) {
        return machine::drain(memory, bad, words, bytes, s);
    }
    s
}

// The operations of register 8.
fn operate_eight(entries: &mut [u64], t: Transfer, va: VirtualAddress)
    requires { (t.register ≡ 8) × (length entries.old ≡ 32) }
    ensures { (l : Lists) (s : Scalars) (size : ℕ) → machine_of l entries.new s size
        ≡ spec.operated (machine_of l entries.old s size) t va }
{
    if is_flush(t) {
        tlb::flush(entries);
        return;
    }
    if registers::is_pair(t, 1, 6) {
        tlb::drop_covering(entries, va);
    }
}

// The operation of a write, of which the value written is the virtual address.
fn operate(
    memory: &mut [u8],
    bad: &[u8],
    words: &mut [u64],
    bytes: &mut [[u8; 16]; 8],
    lines: &mut [u64],
    store: &[u8],
    entries: &mut [u64],
    s: Scalars,
    t: Transfer,
    va: VirtualAddress,
) -> Scalars
    requires { (length entries.old ≡ 32) × (va.0 < 0x100000000) × CleanReady memory.old words.old bytes.old lines.old store.now s }
    ensures { ((pointers : List ℕ) (size : ℕ)
        → machine_of (lists memory.new bad.now words.new bytes.new lines.new pointers store.now)
        entries.new result size
        ≡ spec.operated
        (machine_of (lists memory.old bad.now words.old bytes.old lines.old pointers store.now)
        entries.old s size) t va)
        × (length bytes.new ≡ 8) }
{
    if t.register == 7 {
        return operate_seven(memory, bad, words, bytes, lines, store, s, t, va);
    }
    if t.register == 8 {
        operate_eight(entries, t, va);
        return s;
    }
    s
}

// A write: the operation, then the register. It and what it calls are lent the lists one by one: what README names asks for no more than it needs, and
// `machine::Lent` asks for the pointers, and for a store that may be written.
pub fn write(
    memory: &mut [u8],
    bad: &[u8],
    words: &mut [u64],
    bytes: &mut [[u8; 16]; 8],
    lines: &mut [u64],
    store: &[u8],
    entries: &mut [u64],
    s: Scalars,
    t: Transfer,
    v: u32,
) -> Outcome
    requires { (length entries.old ≡ 32) × CleanReady memory.old words.old bytes.old lines.old store.now s }
    ensures { ((pointers : List ℕ) (size : ℕ)
        → stepped_of (lists memory.new bad.now words.new bytes.new lines.new pointers store.now)
        entries.new size result
        ≡ spec.write
        (machine_of (lists memory.old bad.now words.old bytes.old lines.old pointers store.now)
        entries.old s size) t v)
        × (length bytes.new ≡ 8) }
{
    let r = s.cp15.registers;
    let after = registers::written(r, t.register, v);
    let va = VirtualAddress(v);
    let u = operate(memory, bad, words, bytes, lines, store, entries, s, t, va);
    Outcome {
        scalars: machine::with_registers(u, after),
        answer: Answer::Value(0),
    }
}
