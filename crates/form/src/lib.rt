// Numbers as a text, and read back from it, by the bytes behind them.
#![tactic(auto)]

ghost use Rattle.std.specs.Prelude.{◌≡◌, ◌+◌, ◌-◌, ◌*◌, ◌≤◌, length, drop, replicate, IfSome};
ghost use Rattle.printed.specs.Printed.{comma};
ghost use Rattle.printed.specs.Code.{over};
ghost use Rattle.form.specs.Texts.{text_by};
ghost use Rattle.form.specs.Code as code;

use fields::Field;

const ZERO: u8 = 48;

const FEED: u8 = 10;

// The field at a place, without leading zeros, with the byte `by` behind it.
fn read_plain(text: &[u8], from: usize, by: u8) -> Option<Field>
    requires { (from ≤ length text.now) × (1 ≤ by) }
    ensures { (result ≡ code.plain_at by (drop from text.now)) × IfSome result (λ f. from + f.size ≤ length text.now) }
{
    let f = fields::read_field(text, from, by)?;
    if f.size >= 3 && text[from] == ZERO {
        return None;
    }
    Some(f)
}

// The numbers of a text, as many as there are bytes behind them; false where the text departs.
// A bool: the numbers are in the caller's list, and an option would hold nothing.
pub fn read_numbers(text: &[u8], separators: &[u8], numbers: &mut [u32]) -> bool
    requires { (length separators.now ≡ length numbers.old) × code.NoZero separators.now }
    ensures { code.NumbersRead (code.places_of separators.now) text.now numbers.new result }
{
    let mut at: usize = 0;
    for (k, &by) in separators.iter().enumerate() {
        let Some(f) = read_plain(text, at, by) else {
            return false;
        };
        numbers[k] = f.value;
        at += f.size;
    }
    at == text.len()
}

// How many bytes the text of numbers has.
pub fn text_size(numbers: &[u32]) -> usize
    requires { length numbers.now ≤ 0x10000 }
    ensures { (result ≡ code.text_size numbers.now) × (result ≤ length numbers.now * 11) }
{
    let mut size: usize = 0;
    for &n in numbers {
        size += printed::digits(n as u64) + 1;
    }
    size
}

// The text of numbers, laid at the front of a list.
pub fn put_numbers(out: &mut [u8], separators: &[u8], numbers: &[u32])
    requires { (length separators.now ≡ length numbers.now) × (code.text_size numbers.now ≤ length out.old) }
    ensures { out.new ≡ over out.old 0 (text_by (code.places_of separators.now) numbers.now) }
{
    let mut at: usize = 0;
    for (k, &n) in numbers.iter().enumerate() {
        let end = printed::put_number(out, at, n as u64);
        at = printed::put_byte(out, end, separators[k]);
    }
}

// Line feeds behind the last field of each of so many lines, in a list that has commas from a place on.
pub fn end_lines(separators: &mut [u8], from: usize, lines: usize, fields: usize)
    requires { (1 ≤ fields) × (from + lines * fields ≤ length separators.old) × (length separators.old ≤ 0x10000)
        × (drop from separators.old ≡ replicate (length separators.old - from) comma) }
    ensures { separators.new ≡ over separators.old from (code.lines_separators lines fields) }
{
    let mut at = from;
    for _ in 0..lines {
        at += fields;
        separators[at - 1] = FEED;
    }
}
