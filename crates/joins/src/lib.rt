// Stores into the write buffer: they join the newest entry of their block, or take a new one.
#![tactic(auto)]

ghost use Rattle.std.specs.Prelude.{◌≡◌, true, false, List, [], ℕ, ◌+◌, ◌/◌, ◌<◌, ◌≤◌, length, get_or, set};
ghost use Rattle.std.specs.Int.Bits.{bit_or};
ghost use Rattle.words.specs.Words.{is_width, stored};
ghost use Rattle.buffer.specs.Buffer as spec;
ghost use Rattle.buffer.specs.Packing.{slots_of, backing_of};
ghost use Rattle.buffer.specs.Ranges.{Fits, Left, Stores};

use values::PhysicalAddress;

// Whether one of the eight places has the block: if not, no entry has it. All places are compared, so that a compiler can take several at a time.
fn may_hold(words: &[u64], block: u32) -> bool
    requires { length words.now ≡ 8 }
    ensures { result ≡ false → (i : ℕ) → i < 8 → get_or words.now i 0 / 0x100000000 ≡ block → ⊥ }
{
    let mut found = false;
    for w in &words[..8] {
        found |= (*w / 0x100000000) as u32 == block;
    }
    found
}

// The newest of the first `used` entries that has the block, searched from the newest down.
fn search_down(words: &[u64], used: usize, block: u32) -> Option<usize>
    requires { (length words.now ≡ 8) × (used ≤ 8) }
    ensures { (bytes : List (List ℕ)) → length bytes ≡ 8 → result ≡ spec.newest_of (slots_of words.now bytes) block used }
{
    for n in (0..used).rev() {
        if words[n] / 0x100000000 == block as u64 {
            return Some(n);
        }
    }
    None
}

// The newest of the first `used` entries that has the block: the last, none if no place has it, or one that is searched for.
fn newest(words: &[u64], used: usize, block: u32) -> Option<usize>
    requires { (length words.now ≡ 8) × (used ≤ 8) }
    ensures { (bytes : List (List ℕ)) → length bytes ≡ 8 → result ≡ spec.newest_of (slots_of words.now bytes) block used }
{
    if used == 0 {
        return None;
    }
    if words[used - 1] / 0x100000000 == block as u64 {
        return Some(used - 1);
    }
    if !may_hold(words, block) {
        return None;
    }
    search_down(words, used, block)
}

// An entry's bytes with those of a store in them.
fn with_store(entry: [u8; 16], offset: usize, width: u32, value: u32) -> [u8; 16]
    requires { (is_width width ≡ true) × (offset + width ≤ 16) }
    ensures { result ≡ stored width entry offset value }
{
    let mut e = entry;
    words::store(&mut e, offset, width, value);
    e
}

// document 01 names the form: eight arrays of sixteen bytes, taken and given by value
// The bytes of the entries, with a store's bytes in entry i.
fn merge(bytes: [[u8; 16]; 8], i: usize, offset: usize, width: u32, value: u32) -> [[u8; 16]; 8]
    requires { (i < 8) × (is_width width ≡ true) × (offset + width ≤ 16) }
    ensures { result ≡ set bytes i (stored width (get_or bytes i []) offset value) }
{
    let mut out = bytes;
    let entry = out[i];
    out[i] = with_store(entry, offset, width, value);
    out
}

// The mask of the bytes of an access, by its place in its block.
fn mask_of(width: u32, offset: u32) -> u64
    requires { (is_width width ≡ true) × (offset + width ≤ 16) }
    ensures { (result ≡ spec.mask_of width offset) × (result < 0x10000) }
{
    ((1 << width) - 1) << offset
}

// A store's mask and bytes go into entry i.
fn join(
    words: &mut [u64],
    bytes: &mut [[u8; 16]; 8],
    i: usize,
    mask: u64,
    offset: usize,
    width: u32,
    value: u32,
)
    requires { (length words.old ≡ 8) × (i < 8) × (is_width width ≡ true) × (offset + width ≤ 16) }
    ensures { (words.new ≡ set words.old i (bit_or (get_or words.old i 0) mask))
        × (bytes.new ≡ set bytes.old i (stored width (get_or bytes.old i []) offset value)) }
{
    words[i] |= mask;
    let b = *bytes;
    *bytes = merge(b, i, offset, width, value);
}

// A store of bytes inside memory joins the newest entry of its block, or takes a new one. It answers the number of entries.
pub fn store(
    memory: &mut [u8],
    bad: &[u8],
    words: &mut [u64],
    bytes: &mut [[u8; 16]; 8],
    used: usize,
    pa: PhysicalAddress,
    width: u32,
    value: u32,
) -> usize
    requires { Fits memory.old words.old bytes.old used × Stores memory.old pa width }
    ensures { Left memory.new bad.now words.new bytes.new result
        (spec.buffered (backing_of memory.old bad.now words.old bytes.old used) pa width value) }
{
    let block = pa.0 / 16;
    let offset = pa.0 % 16;
    let mask = mask_of(width, offset);
    let found = newest(words, used, block);
    match found {
        Some(i) => {
            join(words, bytes, i, mask, offset as usize, width, value);
            used
        },
        None => {
            let fresh = with_store([0u8; 16], offset as usize, width, value);
            buffer::push(
                memory,
                bad,
                words,
                bytes,
                used,
                (block as u64) * 0x100000000 + mask,
                fresh,
            )
        },
    }
}
