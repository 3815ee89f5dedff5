// The numbers of TLB entries, cache lines and buffer entries, and the words of numbers.
#![tactic(auto)]

ghost use Rattle.std.specs.Prelude.{◌≡◌, true, ◌+◌, ◌*◌, ◌≤◌, ◌<◌, length, drop, get_or, replicate, MatchOption};
ghost use Rattle.printed.specs.Code.{over};
ghost use Rattle.form.specs.Form.{each_numbers};
ghost use Rattle.tlb.specs.Packing.{entry_of, entries_of, word_of};
ghost use Rattle.cache.specs.Packing.{line_of, lines_of};
ghost use Rattle.cache.specs.Packing as cached;
ghost use Rattle.buffer.specs.Packing.{slot_of, slots_of};
ghost use Rattle.buffer.specs.Packing as buffered;
ghost use Rattle.walk.specs.Ranges.{InRange};
ghost use Rattle.values.specs.Empty.{empty_entry, empty_line, empty_slot};
ghost use Rattle.numbers.specs.Fields.{head_from};
ghost use Rattle.numbers.specs.Text.{form};
ghost use Rattle.numbers.specs.Code as code;

use values::{Counts, Cp15};

mod rows;

pub use rows::{put, same};
use rows::{put_rows, row_at, same_rows, set_each};

// The numbers of a TLB entry.
fn entry_numbers(w: u64) -> [u32; 11]
    ensures { result ≡ (code.entry_line).numbers (entry_of w) }
{
    [
        (w % 2) as u32,
        (w / 8 % 32) as u32,
        (w / 0x100000000000 * 0x1000) as u32,
        (w / 0x1000000 % 0x100000 * 0x1000) as u32,
        (w / 0x100 % 0x100) as u32,
        (w / 0x10000 % 4) as u32,
        (w / 0x40000 % 4) as u32,
        (w / 0x100000 % 4) as u32,
        (w / 0x400000 % 4) as u32,
        (w / 2 % 2) as u32,
        (w / 4 % 2) as u32,
    ]
}

// The numbers of a cache line.
fn line_numbers(w: u64) -> [u32; 5]
    ensures { result ≡ (code.cache_line).numbers (line_of w) }
{
    [
        (w / 0x100000000) as u32,
        (w / 8 % 0x20000000) as u32,
        (w % 2) as u32,
        (w / 2 % 2) as u32,
        (w / 4 % 2) as u32,
    ]
}

// The numbers of a buffer entry.
fn slot_numbers(w: u64, bytes: [u8; 16]) -> [u32; 18]
    ensures { result ≡ (code.buffer_line).numbers (slot_of w bytes) }
{
    let mut out = [0u32; 18];
    for i in 0..16 {
        out[i] = u32::from(bytes[i]);
    }
    out[16] = (w % 0x100000000) as u32;
    out[17] = (w / 0x100000000) as u32;
    out
}

// The numbers of TLB entries, laid from a place on.
pub fn put_entries(numbers: &mut [u32], from: usize, entries: &[u64])
    requires { (from + length entries.now * 11 ≤ length numbers.old) × (length numbers.old ≤ 0x10000) }
    ensures { numbers.new ≡ over numbers.old from (each_numbers code.entry_line (entries_of entries.now)) }
{
    put_rows(
        numbers,
        from,
        11,
        entries.len(),
        |i| -> [u32; 11]
            requires { i < length entries.now }
            ensures { result ≡ (code.entry_line).numbers (entry_of (get_or entries.entry.now i 0)) }
        { entry_numbers(entries[i]) },
    );
}

// The numbers of cache lines, laid from a place on.
pub fn put_lines(numbers: &mut [u32], from: usize, lines: &[u64])
    requires { (from + length lines.now * 5 ≤ length numbers.old) × (length numbers.old ≤ 0x10000) }
    ensures { numbers.new ≡ over numbers.old from (each_numbers code.cache_line (lines_of lines.now)) }
{
    put_rows(
        numbers,
        from,
        5,
        lines.len(),
        |i| -> [u32; 5]
            requires { i < length lines.now }
            ensures { result ≡ (code.cache_line).numbers (line_of (get_or lines.entry.now i 0)) }
        { line_numbers(lines[i]) },
    );
}

// The numbers of buffer entries, laid from a place on.
pub fn put_slots(numbers: &mut [u32], from: usize, words: &[u64], bytes: &[[u8; 16]])
    requires { (length words.now ≡ length bytes.now) × (from + length words.now * 18 ≤ length numbers.old)
        × (length numbers.old ≤ 0x10000) }
    ensures { numbers.new
        ≡ over numbers.old from (each_numbers code.buffer_line (slots_of words.now bytes.now)) }
{
    put_rows(
        numbers,
        from,
        18,
        words.len(),
        |i| -> [u32; 18]
            requires { (i < length words.now) × (i < length bytes.now) }
            ensures { result ≡ (code.buffer_line).numbers (slot_of (get_or words.entry.now i 0) (get_or bytes.entry.now i (replicate 16 0))) }
        { slot_numbers(words[i], bytes[i]) },
    );
}

// The word of the TLB entry of these numbers, where they fit and it is in range.
fn entry_word(row: [u32; 11]) -> u64
    ensures { code.Packs code.entry_line InRange word_of row result }
{
    let [
        valid,
        size,
        vbase,
        pbase,
        domain,
        ap0,
        ap1,
        ap2,
        ap3,
        cacheable,
        bufferable,
    ] = row;
    let bases = (pbase / 0x1000) as u64 + 0x100000 * ((vbase / 0x1000) as u64);
    let rights = ap0 % 4 + 4 * (ap1 % 4 + 4 * (ap2 % 4 + 4 * (ap3 % 4)));
    let high = (domain % 0x100) as u64 + 0x100 * (rights as u64 + 0x100 * bases);
    let kind = (size % 32) as u64 + 32 * high;
    (valid % 2) as u64 + 2 * ((cacheable % 2) as u64 + 2 * ((bufferable % 2) as u64 + 2 * kind))
}

// The words of the TLB entries whose numbers stand from a place on; false only where a number does not fit, or an entry is not in range.
// A bool here and in the next two: the words are in the caller's list, and an option would hold nothing.
pub fn read_entries(numbers: &[u32], from: usize, entries: &mut [u64]) -> bool
    requires { (from + length entries.old * 11 ≤ length numbers.now) × (length numbers.now ≤ 0x10000) }
    ensures { code.ThingsRead code.entry_line InRange empty_entry (length entries.old) (drop from numbers.now)
        (entries_of entries.new) result }
{
    set_each(
        entries,
        |i| -> u64
            requires { from + i * 11 + 11 ≤ length numbers.now }
            ensures { code.Packs code.entry_line InRange word_of (code.part numbers.entry.now (from + i * 11) 11) result }
        { entry_word(row_at(numbers, from + i * 11)) },
    );
    same_rows(
        numbers,
        from,
        11,
        entries.len(),
        |i| -> [u32; 11]
            requires { i < length entries.now }
            ensures { result ≡ (code.entry_line).numbers (entry_of (get_or entries.entry.now i 0)) }
        { entry_numbers(entries[i]) },
    )
}

// The word of the cache line of these numbers, where they fit and it has a physical line number of 29 bits.
fn line_word(row: [u32; 5]) -> u64
    ensures { code.Packs code.cache_line code.LineHolds cached.word_of row result }
{
    let [tag, frame, valid, low, high] = row;
    let place = (frame % 0x20000000) as u64 + 0x20000000 * (tag as u64);
    (valid % 2) as u64 + 2 * ((low % 2) as u64 + 2 * ((high % 2) as u64 + 2 * place))
}

// The words of the cache lines whose numbers stand from a place on; false only where a number does not fit, or a physical line number has more than 29 bits.
pub fn read_lines(numbers: &[u32], from: usize, lines: &mut [u64]) -> bool
    requires { (from + length lines.old * 5 ≤ length numbers.now) × (length numbers.now ≤ 0x10000) }
    ensures { code.ThingsRead code.cache_line code.LineHolds empty_line (length lines.old) (drop from numbers.now)
        (lines_of lines.new) result }
{
    set_each(
        lines,
        |i| -> u64
            requires { from + i * 5 + 5 ≤ length numbers.now }
            ensures { code.Packs code.cache_line code.LineHolds cached.word_of (code.part numbers.entry.now (from + i * 5) 5) result }
        { line_word(row_at(numbers, from + i * 5)) },
    );
    same_rows(
        numbers,
        from,
        5,
        lines.len(),
        |i| -> [u32; 5]
            requires { i < length lines.now }
            ensures { result ≡ (code.cache_line).numbers (line_of (get_or lines.entry.now i 0)) }
        { line_numbers(lines[i]) },
    )
}

// The word of a buffer entry.
fn slot_word(mask: u32, block: u32) -> u64
    ensures { result ≡ buffered.word_of block mask }
{
    block as u64 * 0x100000000 + mask as u64
}

// The low bytes of sixteen numbers from a place on.
fn slot_bytes(numbers: &[u32], at: usize) -> [u8; 16]
    requires { at + 16 ≤ length numbers.now }
    ensures { result ≡ code.low_bytes numbers.now at }
{
    let mut out = [0u8; 16];
    for i in 0..16 {
        out[i] = (numbers[at + i] % 0x100) as u8;
    }
    out
}

// The words and bytes of the buffer entries whose numbers stand from a place on; false where a number does not fit.
pub fn read_slots(numbers: &[u32], from: usize, words: &mut [u64], bytes: &mut [[u8; 16]]) -> bool
    requires { (length words.old ≡ length bytes.old) × (from + length words.old * 18 ≤ length numbers.now)
        × (length numbers.now ≤ 0x10000) }
    ensures { code.ThingsRead code.buffer_line code.SlotHolds empty_slot (length words.old) (drop from numbers.now)
        (slots_of words.new bytes.new) result }
{
    set_each(
        words,
        |i| -> u64
            requires { from + i * 18 + 18 ≤ length numbers.now }
            ensures { result ≡ buffered.word_of (get_or numbers.entry.now (from + i * 18 + 17) 0) (get_or numbers.entry.now (from + i * 18 + 16) 0) }
        { slot_word(numbers[from + i * 18 + 16], numbers[from + i * 18 + 17]) },
    );
    set_each(
        bytes,
        |i| -> [u8; 16]
            requires { from + i * 18 + 18 ≤ length numbers.now }
            ensures { result ≡ code.low_bytes numbers.entry.now (from + i * 18) }
        { slot_bytes(numbers, from + i * 18) },
    );
    same_rows(
        numbers,
        from,
        18,
        words.len(),
        |i| -> [u32; 18]
            requires { (i < length words.now) × (i < length bytes.now) }
            ensures { result ≡ (code.buffer_line).numbers (slot_of (get_or words.entry.now i 0) (get_or bytes.entry.now i (replicate 16 0))) }
        { slot_numbers(words[i], bytes[i]) },
    )
}

// The numbers of the first line, laid at the front of a list.
fn put_head(
    numbers: &mut [u32],
    cp15: Cp15,
    size: usize,
    pointers: &[u32],
    used: usize,
    counts: Counts,
)
    requires { (length numbers.old ≡ 3085) × (length pointers.now ≡ 16) × (size < 0x100000000) × (used < 0x100000000) }
    ensures { numbers.new
        ≡ over numbers.old 0 ((code.head_line).numbers (head_from cp15.registers size cp15.pointer pointers.now used counts)) }
{
    let r = cp15.registers;
    let front = [
        r.control,
        r.base,
        r.domains,
        r.fsr,
        r.far,
        size as u32,
        cp15.pointer,
    ];
    put(numbers, 0, &front);
    put(numbers, 7, pointers);
    let back = [
        used as u32,
        counts.calls,
        counts.misses,
        counts.hits,
        counts.fills,
        counts.halves,
    ];
    put(numbers, 23, &back);
}

// The numbers of a state and a record.
pub fn put_all(
    numbers: &mut [u32],
    cp15: Cp15,
    size: usize,
    counts: Counts,
    used: usize,
    entries: &[u64],
    lines: &[u64],
    pointers: &[u32],
    words: &[u64],
    bytes: &[[u8; 16]],
)
    requires { (length numbers.old ≡ 3085) × code.Lengths entries.now lines.now pointers.now words.now bytes.now
        × (size < 0x100000000) × (used < 0x100000000) }
    ensures { numbers.new ≡ form.numbers
        (code.saved_in cp15 size counts used entries.now lines.now pointers.now words.now bytes.now) }
{
    put_head(numbers, cp15, size, pointers, used, counts);
    put_entries(numbers, 29, entries);
    put_lines(numbers, 381, lines);
    put_slots(numbers, 2941, words, bytes);
}

// What a state has that is no list, and the record.
#[derive(Clone, Copy)]
pub struct Head {
    pub cp15: Cp15,
    pub size: usize,
    pub used: usize,
    pub counts: Counts,
}

// The first line's numbers, and the pointers of the sets into a list.
fn read_head(numbers: &[u32], pointers: &mut [u32]) -> Head
    requires { (length numbers.now ≡ 3085) × (length pointers.old ≡ 16) }
    ensures { (code.head_of result pointers.new ≡ (code.head_line).thing (code.part numbers.now 0 29))
        × ((code.head_line).fits (code.part numbers.now 0 29) ≡ true) }
{
    pointers.copy_from_slice(&numbers[7..23]);
    let registers = values::registers_of(
        numbers[0], numbers[1], numbers[2], numbers[3], numbers[4],
    );
    let cp15 = values::cp15_of(registers, numbers[6]);
    let counts = values::counts_of(
        numbers[24],
        numbers[25],
        numbers[26],
        numbers[27],
        numbers[28],
    );
    Head {
        cp15,
        size: numbers[5] as usize,
        used: numbers[23] as usize,
        counts,
    }
}

// The state and the record of numbers: what is no list, with the lists beside it; none only where a number does not fit, or an entry or a line is not as in a
// sound state.
pub fn read_all(
    numbers: &[u32],
    entries: &mut [u64],
    lines: &mut [u64],
    pointers: &mut [u32],
    words: &mut [u64],
    bytes: &mut [[u8; 16]],
) -> Option<Head>
    requires { (length numbers.now ≡ 3085) × code.Lengths entries.old lines.old pointers.old words.old bytes.old }
    ensures { MatchOption result (code.Unfit numbers.now)
        (λ h. code.AllRead numbers.now (code.saved_by h entries.new lines.new pointers.new words.new bytes.new)) }
{
    let head = read_head(numbers, pointers);
    if read_entries(numbers, 29, entries) && read_lines(numbers, 381, lines) {
        return read_slots(numbers, 2941, words, bytes).then_some(head);
    }
    None
}
