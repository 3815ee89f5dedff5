// Refusal 3, "The state is unsound": each clause as a test over the lent words.
#![tactic(auto)]

ghost use Rattle.std.specs.Prelude.{◌≡◌, List, ℕ, ◌+◌, ◌*◌, ◌/◌, ◌%◌, ◌<◌, length, eqb};
ghost use Rattle.values.specs.Lists.{all, sum};
ghost use Rattle.tlb.specs.Tlb.{base_of};
ghost use Rattle.tlb.specs.Packing.{entry_of, entries_of};
ghost use Rattle.cache.specs.Dcache as dcache;
ghost use Rattle.cache.specs.Packing.{side_of};
ghost use Rattle.soundness.specs.Soundness as spec;
ghost use Rattle.machine.specs.Machine.{machine_from};

use values::{Count, Counts, Cp15, Line, Registers};

// Whether a base of 4 KB pages is a multiple of a TLB size.
fn base_sound(size: u64, page: u64) -> bool
    ensures { result ≡ eqb (base_of size (page * 0x1000)) (page * 0x1000) }
{
    match size {
        0 => page % 0x100 == 0,
        1 => page % 16 == 0,
        _ => true,
    }
}

// Whether the fields of a valid entry are in range.
fn fields_sound(w: u64) -> bool
    ensures { result ≡ spec.entry_in_range (entry_of w) }
{
    let size = w / 8 % 32;
    size < 3
        && w / 0x100 % 0x100 < 16
        && base_sound(size, w / 0x100000000000)
        && base_sound(size, w / 0x1000000 % 0x100000)
}

// Whether a word stands for an empty entry, or for a valid one whose fields are in range.
fn entry_sound(w: u64) -> bool
    ensures { result ≡ spec.entry_sound (entry_of w) }
{
    if w % 2 == 1 { fields_sound(w) } else { w == 0 }
}

// Whether every entry is sound.
fn entries_sound(entries: &[u64]) -> bool
    ensures { result ≡ all spec.entry_sound (entries_of entries.now) }
{
    entries.iter().all(|&w| entry_sound(w))
}

// Whether the counts are at most the calls, the dirty halves with the halves sent out.
fn counts_sound(c: Counts, dirty: Count) -> bool
    ensures { (lines : List Line) → dirty ≡ sum dcache.dirty_halves lines → result ≡ spec.counts_sound c lines }
{
    c.misses <= c.calls
        && c.hits <= c.calls
        && c.fills <= c.calls
        && c.halves as u64 + dirty as u64 <= c.calls as u64
}

// Whether control has only bits that are kept and a listed combination, and each register lies in its range.
fn registers_sound(r: Registers) -> bool
    ensures { result ≡ spec.registers_sound r }
{
    registers::kept(r.control) == r.control
        && registers::is_listed(r.control)
        && r.base % 0x4000 == 0
        && r.fsr < 256
}

// Whether the state is sound: the record's registers and pointer, the lent lists, the number of buffer entries and the counts, for a memory of n bytes.
pub fn sound(
    cp15: Cp15,
    entries: &[u64],
    lines: &[u64],
    pointers: &[u32],
    words: &[u64],
    bytes: &[[u8; 16]],
    used: usize,
    counts: Counts,
    n: usize,
) -> bool
    requires { (length lines.now ≡ 512) × (length words.now ≡ 8) × (length bytes.now ≡ 8) }
    ensures { (memory bad store : List ℕ) (size : ℕ) → length memory ≡ n → result ≡ spec.sound
        (machine_from cp15 (entries_of entries.now) (side_of memory bad words.now bytes.now used lines.now pointers.now store) counts size) }
{
    cp15.pointer <= 31
        && lines_test::pointers_sound(pointers)
        && lines_test::lines_sound(lines, n)
        && tags_test::tags_sound(lines)
        && buffer_test::buffer_sound(words, bytes, used, n)
        && entries_sound(entries)
        && registers_sound(cp15.registers)
        && counts_sound(counts, lines_test::dirty_halves(lines))
}
