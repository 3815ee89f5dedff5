// Refusal 3 of a set: no two valid lines with equal tags.
#![tactic(auto)]

ghost use Rattle.std.specs.Prelude.{◌≡◌, ℕ, ◌+◌, ◌/◌, ◌%◌, ◌<◌, ◌≤◌, true, false, length, take, drop, nat_eq, slice_index};
ghost use Rattle.values.specs.Lists.{all, any};
ghost use Rattle.cache.specs.Packing.{lines_of};
ghost use Rattle.soundness.specs.Soundness as spec;

// The key of line p of a set: a valid line's is its tag, an empty line's a number that no tag in range and no other empty line has.
fn key_of(w: u64, p: usize) -> u32
    requires { p < 32 }
    ensures { (w % 2 ≡ 1 → result ≡ w / 0x100000000) × (w ≡ 0 → result ≡ 0x800000 + p) }
{
    // bits, and no if: with one the test of all sets takes a third longer
    (w / 0x100000000) as u32 | ((w % 2) as u32).wrapping_sub(1) & (0x800000 + p as u32)
}

// The keys of the set whose lines begin at base, twice in a row.
fn keys_of(lines: &[u64], base: usize) -> [u32; 64]
    requires { (length lines.now ≡ 512) × (base ≤ 480) }
    ensures { (j : ℕ) → j < 64
        → (slice_index lines.now (base + j % 32) % 2 ≡ 1 → slice_index result j ≡ slice_index lines.now (base + j % 32) / 0x100000000)
        × (slice_index lines.now (base + j % 32) ≡ 0 → slice_index result j ≡ 0x800000 + j % 32) }
{
    let mut keys = [0u32; 64];
    for p in 0..32 {
        let k = key_of(lines[base + p], p);
        keys[p] = k;
        keys[p + 32] = k;
    }
    keys
}

// Whether key i is among the 16 keys behind it.
fn key_again(keys: &[u32], i: usize) -> bool
    requires { (length keys.now ≡ 64) × (i < 32) }
    ensures { result ≡ any (nat_eq (slice_index keys.now i)) (take 16 (drop (i + 1) keys.now)) }
{
    keys[i + 1..i + 17].contains(&keys[i])
}

// Whether one of the eight keys from i on is among the 16 keys behind it.
fn keys_again(keys: &[u32], i: usize) -> bool
    requires { (length keys.now ≡ 64) × (i ≤ 24) }
    ensures { (result ≡ false → (j : ℕ) → i ≤ j → j < i + 8
        → any (nat_eq (slice_index keys.now j)) (take 16 (drop (j + 1) keys.now)) ≡ false)
        × (((j : ℕ) → i ≤ j → j < i + 8 → any (nat_eq (slice_index keys.now j)) (take 16 (drop (j + 1) keys.now))
        ≡ false) → result ≡ false) }
{
    let mut again = false;
    // all eight are tested, and none ends the loop: with a branch for each key the test of all sets takes an eighth longer
    for j in 0..8 {
        again |= key_again(keys, i + j);
    }
    again
}

// Whether no set has two valid lines with equal tags, if each line is sound by itself: the keys of a set are equal then just where such tags are.
// Each key is compared with the 16 behind it, round the set, eight keys at a time; the first eight with a key that occurs again end both loops.
pub fn tags_sound(lines: &[u64]) -> bool
    requires { length lines.now ≡ 512 }
    ensures { (n : ℕ) → all (spec.line_sound n) (lines_of lines.now) ≡ true → result ≡ spec.tags_sound 16 (lines_of lines.now) }
{
    let mut sound = true;
    // document 01 names this form: nested loops left by a label
    'sets: for s in 0..16 {
        let keys = keys_of(lines, s * 32);
        for p in (0..32).step_by(8) {
            if keys_again(&keys, p) {
                sound = false;
                break 'sets;
            }
        }
    }
    sound
}
