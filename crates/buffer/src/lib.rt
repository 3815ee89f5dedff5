// The write buffer: eight entries in front of memory, oldest first. An entry's word and its sixteen bytes are lent apart: document 01 names the array of
// eight arrays of sixteen bytes, and a search reads the words alone.
#![tactic(auto)]

ghost use Rattle.std.specs.Prelude.{◌≡◌, [], ◌∷◌, ◌++◌, ◌+◌, ◌-◌, ◌*◌, ◌/◌, ◌%◌, ◌<◌, ◌≤◌, length, drop};
ghost use Rattle.buffer.specs.Buffer as spec;
ghost use Rattle.buffer.specs.Packing.{slot_of, backing_of};
ghost use Rattle.buffer.specs.Ranges.{Fits, Left};

// The bytes that the mask has go to memory.
fn lay(memory: &mut [u8], at: usize, mask: u32, bytes: [u8; 16])
    requires { at + 16 ≤ length memory.old }
    ensures { memory.new ≡ spec.laid memory.old at mask bytes }
{
    let mut left = mask;
    for (i, byte) in bytes.iter().enumerate() {
        lay_one(memory, at + i, left, *byte);
        left /= 2;
    }
}

// One byte goes to memory if the mask's bit 0 is set.
fn lay_one(memory: &mut [u8], at: usize, mask: u32, byte: u8)
    requires { at < length memory.old }
    ensures { memory.new ≡ spec.laid_one memory.old at mask byte }
{
    if mask % 2 == 1 {
        memory[at] = byte;
    }
}

// The places behind the first close up, and the last is empty.
fn close<T: Copy>(places: &mut [T], empty: T)
    requires { length places.old ≡ 8 }
    ensures { places.new ≡ drop 1 places.old ++ (empty ∷ []) }
{
    places.copy_within(1..8, 0);
    places[7] = empty;
}

// The lowest four bits of a mask, for the bytes of word w, or none where it is bad.
fn word_mask(bad: &[u8], w: usize, mask: u32) -> u32
    ensures { (result ≡ spec.word_mask bad.now w mask) × (result < 16) }
{
    if bus::is_bad(bad, w) {
        return 0;
    }
    mask % 16
}

// A block's mask without the bytes of its bad words.
fn good_mask(bad: &[u8], block: usize, mask: u32) -> u32
    requires { block < 0x1000000000000000 }
    ensures { result ≡ spec.good_mask bad.now block mask }
{
    let w = block * 4;
    if bus::four_good(bad, w) {
        return mask % 0x10000;
    }
    let first = word_mask(bad, w, mask);
    let second = word_mask(bad, w + 1, mask / 16);
    let third = word_mask(bad, w + 1 + 1, mask / 16 / 16);
    let fourth = word_mask(bad, w + 1 + 1 + 1, mask / 16 / 16 / 16);
    first + 16 * (second + 16 * (third + 16 * fourth))
}

// The oldest entry leaves for memory, and the others close up.
fn oldest_leaves(
    memory: &mut [u8],
    bad: &[u8],
    words: &mut [u64],
    bytes: &mut [[u8; 16]],
    used: usize,
)
    requires { Fits memory.old words.old bytes.old used × (0 < used) }
    ensures { Left memory.new bad.now words.new bytes.new (used - 1)
        (spec.oldest_left (backing_of memory.old bad.now words.old bytes.old used)) }
{
    let w = words[0];
    let b = bytes[0];
    let block = (w / 0x100000000) as usize;
    let mask = (w % 0x100000000) as u32;
    lay(memory, block * 16, good_mask(bad, block, mask), b);
    close(words, 0);
    close(bytes, [0; 16]);
}

// A new entry behind the others; if there are eight, the oldest leaves first. It answers the number of entries.
pub fn push(
    memory: &mut [u8],
    bad: &[u8],
    words: &mut [u64],
    bytes: &mut [[u8; 16]],
    used: usize,
    w: u64,
    b: [u8; 16],
) -> usize
    requires { Fits memory.old words.old bytes.old used × (w / 0x100000000 * 16 + 16 ≤ length memory.old) }
    ensures { Left memory.new bad.now words.new bytes.new result
        (spec.pushed (backing_of memory.old bad.now words.old bytes.old used) (slot_of w b)) }
{
    if used < 8 {
        words[used] = w;
        bytes[used] = b;
        return used + 1;
    }
    oldest_leaves(memory, bad, words, bytes, used);
    words[7] = w;
    bytes[7] = b;
    8
}

// document 01 names the form: eight arrays of sixteen bytes, taken and given by value
// All entries leave, oldest first. It answers the bytes that are left, all zeros where the places behind the entries were empty.
pub fn drain(
    memory: &mut [u8],
    bad: &[u8],
    words: &mut [u64],
    bytes: [[u8; 16]; 8],
    used: usize,
) -> [[u8; 16]; 8]
    requires { Fits memory.old words.old bytes used }
    ensures { Left memory.new bad.now words.new result 0
        (spec.drained (backing_of memory.old bad.now words.old bytes used)) }
{
    let mut left = bytes;
    for i in 0..used {
        oldest_leaves(memory, bad, words, &mut left, used - i);
    }
    left
}

// A half line sent out takes a new entry. It answers the number of entries.
pub fn push_half(
    memory: &mut [u8],
    bad: &[u8],
    words: &mut [u64],
    bytes: &mut [[u8; 16]],
    used: usize,
    block: u32,
    half: [u8; 16],
) -> usize
    requires { Fits memory.old words.old bytes.old used × (block * 16 + 16 ≤ length memory.old) }
    ensures { Left memory.new bad.now words.new bytes.new result
        (spec.half_pushed (backing_of memory.old bad.now words.old bytes.old used) block half) }
{
    push(
        memory,
        bad,
        words,
        bytes,
        used,
        (block as u64) * 0x100000000 + 0xFFFF,
        half,
    )
}
