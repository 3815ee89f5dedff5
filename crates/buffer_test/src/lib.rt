// Refusal 3 of the write buffer: its entries, and its empty places.
#![tactic(auto)]

ghost use Rattle.std.specs.Prelude.{◌≡◌, cond, ◌||◌, length, eqb};
ghost use Rattle.values.specs.Bits.{bit};
ghost use Rattle.buffer.specs.Buffer.{buffer_from};
ghost use Rattle.buffer.specs.Packing.{slot_of, slots_of};
ghost use Rattle.soundness.specs.Soundness as spec;

// Whether a byte is zero or the mask's bit 0 is set.
fn byte_sound(mask: u64, x: u8) -> bool
    ensures { result ≡ (bit mask 0 || eqb x 0) }
{
    mask % 2 == 1 || x == 0
}

// Whether no byte outside the mask is other than zero.
fn zero_outside(mask: u64, b: [u8; 16]) -> bool
    ensures { result ≡ spec.zero_outside mask b }
{
    let mut rest = mask;
    for x in b {
        if !byte_sound(rest, x) {
            return false;
        }
        rest /= 2;
    }
    true
}

// Whether a word and its bytes stand for an entry inside a memory of n bytes, with a mask in range that is not 0 and no byte outside it.
fn slot_sound(w: u64, b: [u8; 16], n: usize) -> bool
    ensures { result ≡ spec.slot_sound n (slot_of w b) }
{
    let mask = w % 0x100000000;
    w / 0x100000000 * 16 + 16 <= n as u64 && mask != 0 && mask < 0x10000 && zero_outside(mask, b)
}

// Whether a word and its bytes are all zeros.
fn slot_empty(w: u64, b: [u8; 16]) -> bool
    ensures { result ≡ spec.slot_empty (slot_of w b) }
{
    w == 0 && zero_outside(0, b)
}

// Whether a place that holds an entry holds a sound one, or one that holds none is empty.
fn place_sound(w: u64, b: [u8; 16], holds: bool, n: usize) -> bool
    ensures { result ≡ cond holds (spec.slot_sound n (slot_of w b)) (spec.slot_empty (slot_of w b)) }
{
    if holds {
        slot_sound(w, b, n)
    } else {
        slot_empty(w, b)
    }
}

// Whether there are at most eight entries, each sound, and the places behind them are empty.
pub fn buffer_sound(words: &[u64], bytes: &[[u8; 16]], used: usize, n: usize) -> bool
    requires { (length words.now ≡ 8) × (length bytes.now ≡ 8) }
    ensures { result ≡ spec.buffer_sound n (buffer_from (slots_of words.now bytes.now) used) }
{
    if used > 8 {
        return false;
    }
    for i in 0..8 {
        if !place_sound(words[i], bytes[i], i < used, n) {
            return false;
        }
    }
    true
}
