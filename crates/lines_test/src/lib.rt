// Refusal 3 of lines: the pointers of the sets, each line by itself, and the dirty halves of all.
#![tactic(auto)]

ghost use Rattle.std.specs.Prelude.{◌≡◌, ◌||◌, ℕ, ◌+◌, ◌*◌, ◌/◌, ◌%◌, ◌<◌, ◌≤◌, length};
ghost use Rattle.values.specs.Lists.{all, sum};
ghost use Rattle.cache.specs.Dcache as dcache;
ghost use Rattle.cache.specs.Packing.{line_of, lines_of};
ghost use Rattle.soundness.specs.Soundness as spec;

use values::Count;

// Whether every pointer is at most 31.
pub fn pointers_sound(pointers: &[u32]) -> bool
    ensures { result ≡ all spec.pointer_sound pointers.now }
{
    pointers.iter().all(|&p| p <= 31)
}

// With this number added, the low 32 bits of a valid line's word stay below 2^32 just where the line is inside a memory of n bytes.
fn spare_of(n: usize) -> u64
    ensures { (n / 32 < 0x20000000 → result + n / 32 * 8 ≡ 0xFFFFFFFF) × (0x20000000 ≤ n / 32 → result ≡ 0) }
{
    if n / 32 < 0x20000000 {
        0xFFFFFFFF - n as u64 / 32 * 8
    } else {
        0
    }
}

// The word of an invalid line; 0 for a valid one.
fn even_part(w: u64) -> u64
    ensures { (w % 2 ≡ 0 → result ≡ w) × (w % 2 ≡ 1 → result ≡ 0) }
{
    if w % 2 == 0 { w } else { 0 }
}

// Whether every line is valid or empty.
fn empties_sound(lines: &[u64]) -> bool
    ensures { result ≡ all (λ (w : ℕ). (line_of w).valid || spec.line_empty (line_of w)) lines.now }
{
    let mut stray: u64 = 0;
    for &w in lines {
        stray |= even_part(w);
    }
    stray == 0
}

// Whether every line is sound. The words are joined bit by bit, and each test is made once, on what they make together.
pub fn lines_sound(lines: &[u64], n: usize) -> bool
    ensures { result ≡ all (spec.line_sound n) (lines_of lines.now) }
{
    let spare = spare_of(n);
    let mut tags: u64 = 0;
    let mut ends: u64 = 0;
    let mut valid: u64 = 1;
    for &word in lines {
        tags |= word;
        ends |= word % 0x100000000 + spare;
        valid &= word;
    }
    tags < 0x80000000000000 && ends < 0x100000000 && (valid == 1 || empties_sound(lines))
}

// How many halves of all lines are dirty. The dirty bits are added where they lie in a word, and the sums brought down at the end.
pub fn dirty_halves(lines: &[u64]) -> Count
    requires { length lines.now ≡ 512 }
    ensures { (result ≡ sum dcache.dirty_halves (lines_of lines.now)) × (result ≤ 1024) }
{
    let mut low: u64 = 0;
    let mut high: u64 = 0;
    for &w in lines {
        low += w / 2 % 2 * 2;
        high += w / 4 % 2 * 4;
    }
    (low / 2 + high / 4) as Count
}
