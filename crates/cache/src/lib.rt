// The Dcache: 512 lines, each one word, in a lent slice; their bytes in the cache store.
#![tactic(auto)]

ghost use Rattle.std.specs.Prelude.{◌≡◌, true, List, ℕ, ◌+◌, ◌*◌, ◌/◌, ◌%◌, ◌<◌, ◌≤◌, length, get_or, set, take, drop};
ghost use Rattle.values.specs.Lists.{first_from};
ghost use Rattle.values.specs.Empty.{empty_line, no_lines};
ghost use Rattle.words.specs.Words.{is_width, Loaded};
ghost use Rattle.cache.specs.Dcache as spec;
ghost use Rattle.cache.specs.Packing.{line_of, lines_of};
ghost use Rattle.cache.specs.Dcache.{dcache_from};

use values::{Line, VirtualAddress};

// The line that a word stands for.
pub fn line_of(w: u64) -> Line
    ensures { result ≡ line_of w }
{
    Line {
        valid: w % 2 == 1,
        tag: (w / 0x100000000) as u32,
        frame: (w / 8 % 0x20000000) as u32,
        low: w / 2 % 2 == 1,
        high: w / 4 % 2 == 1,
    }
}

// The first way from `from` on whose word has the tag, of a valid line or not, or 32.
fn next_tag(lines: &[u64], base: usize, tag: u32, from: usize) -> usize
    requires { (length lines.now ≡ 512) × (base ≤ 480) × (from ≤ 32) }
    ensures { (from ≤ result) × (result ≤ 32) × (result < 32 → get_or lines.now (base + result) 0 / 0x100000000 ≡ tag)
        × (first_from (spec.has_tag tag) (base + result) (drop result (take 32 (drop base (lines_of lines.now))))
        ≡ first_from (spec.has_tag tag) (base + from) (drop from (take 32 (drop base (lines_of lines.now))))) }
{
    let mut i = from;
    // document 01 names the form: a loop that yields the matching way by break
    let found = loop {
        if i == 32 {
            break i;
        }
        if lines[base + i] / 0x100000000 == tag as u64 {
            break i;
        }
        i += 1;
    };
    found
}

// The first line of the address's set that matches, even when the cache is disabled. A word's valid bit is tested where its tag matches.
pub fn find(lines: &[u64], va: VirtualAddress) -> Option<usize>
    requires { (length lines.now ≡ 512) × (va.0 < 0x100000000) }
    ensures { result ≡ spec.find (lines_of lines.now) va }
{
    let base = (va.0 / 32 % 16 * 32) as usize;
    let tag = va.0 / 512;
    let mut i = next_tag(lines, base, tag, 0);
    // document 01 names the form: a loop that yields the matching way by break
    let found = loop {
        if i == 32 {
            break None;
        }
        if lines[base + i] % 2 == 1 {
            break Some(base + i);
        }
        i = next_tag(lines, base, tag, i + 1);
    };
    found
}

// A load from line i.
pub fn load(store: &[u8], i: usize, va: VirtualAddress, width: u32) -> u32
    requires { (length store.now ≡ 16384) × (i < 512) × (is_width width ≡ true) × (va.0 % 32 + width ≤ 32) }
    ensures { Loaded width store.now (i * 32 + va.0 % 32) result }
{
    words::load(store, i * 32 + (va.0 % 32) as usize, width)
}

// A word with the dirty bit of the half at an offset.
fn marked(w: u64, offset: u32) -> u64
    ensures { line_of result ≡ spec.marked (line_of w) offset }
{
    if offset < 16 {
        if w / 2 % 2 == 1 {
            return w;
        }
        return w + 2;
    }
    if w / 4 % 2 == 1 {
        return w;
    }
    w + 4
}

// A store into line i, which marks its half.
pub fn store(
    lines: &mut [u64],
    bytes: &mut [u8],
    i: usize,
    va: VirtualAddress,
    width: u32,
    value: u32,
)
    requires { (length lines.old ≡ 512) × (length bytes.old ≡ 16384) × (i < 512) × (is_width width ≡ true) × (va.0 % 32 + width ≤ 32) }
    ensures { (pointers : List ℕ) → ◌≡◌ {A = spec.Dcache}
        (dcache_from (lines_of lines.new) pointers bytes.new)
        (spec.hit_store (dcache_from (lines_of lines.old) pointers bytes.old) i va width value) }
{
    let offset = va.0 % 32;
    lines[i] = marked(lines[i], offset);
    words::store(bytes, i * 32 + offset as usize, width, value);
}

// A line is emptied.
pub fn empty_line(lines: &mut [u64], i: usize)
    requires { (length lines.old ≡ 512) × (i < 512) }
    ensures { lines_of lines.new ≡ set (lines_of lines.old) i empty_line }
{
    lines[i] = 0u64;
}

// All lines are emptied.
pub fn flush(lines: &mut [u64])
    requires { length lines.old ≡ 512 }
    ensures { lines_of lines.new ≡ no_lines }
{
    lines.fill(0);
}
