// Answers printed as lines of text: line number, kind, value.
#![tactic(auto)]

ghost use Rattle.std.specs.Prelude.{[], ◌∷◌, ◌≡◌, ℕ, ◌+◌, ◌*◌, ◌≤◌, ◌<◌, length, get_or};
ghost use Rattle.printed.specs.Printed.{decimal};
ghost use Rattle.printed.specs.Code as spec;

// The bytes of the longest printed line: a line number of 19 digits, two commas, a kind, a minus sign, a value of ten digits, a line feed.
pub const WIDEST: usize = 34;

// How many decimal digits a number has. Compared with the powers of ten: by the library's logarithm a state takes a quarter more time to store.
pub fn digits(n: u64) -> usize
    requires { n < 10000000000000000000 }
    ensures { (result ≡ length (decimal n)) × (result ≤ 19) }
{
    let mut power: u64 = 10;
    for k in 1..19 {
        if n < power {
            return k;
        }
        power *= 10;
    }
    19
}

// A number in decimal digits, laid from a place on; the place behind them.
pub fn put_number(out: &mut [u8], at: usize, n: u64) -> usize
    requires { (n < 10000000000000000000) × (at + length (decimal n) ≤ length out.old) }
    ensures { spec.Laid out.old out.new at result 19 (decimal n) }
{
    let end = at + digits(n);
    let mut rest = n;
    for i in (at..end).rev() {
        out[i] = b'0' + (rest % 10) as u8;
        rest /= 10;
    }
    end
}

// A byte laid at a place; the place behind it. The place is passed on by value: a cursor's methods would each state the same of list and place.
pub fn put_byte(out: &mut [u8], at: usize, b: u8) -> usize
    requires { at < length out.old }
    ensures { spec.Laid out.old out.new at result 1 (b ∷ []) }
{
    out[at] = b;
    at + 1
}

// 32 bits, of a signed number from 2^31 on with a minus sign.
fn put_value(out: &mut [u8], at: usize, value: u64, signed: bool) -> usize
    requires { (value < 0x100000000) × (at + 11 ≤ length out.old) }
    ensures { spec.Laid out.old out.new at result 11 (spec.value_text signed value) }
{
    if signed && value >= 0x80000000 {
        let b = put_byte(out, at, b'-');
        return put_number(out, b, 0x100000000 - value);
    }
    put_number(out, at, value)
}

// The line of a code.
pub fn put_line(out: &mut [u8], at: usize, line: u64, code: u64, signed: bool) -> usize
    requires { (line < 10000000000000000000) × (code < 0x300000000) × (at + 34 ≤ length out.old) }
    ensures { spec.Laid out.old out.new at result 34 (spec.code_line line signed code) }
{
    let kind = code / 0x100000000;
    let value = code % 0x100000000;
    let sign = signed && code < 0x100000000; // a served answer to a signed load
    let a = put_number(out, at, line);
    let b = put_byte(out, a, b',');
    let c = put_byte(out, b, b'0' + kind as u8);
    let d = put_byte(out, c, b',');
    let e = put_value(out, d, value, sign);
    put_byte(out, e, b'\n')
}

// The lines of the first n codes of a list, numbered from `first` on; how many bytes they have.
pub fn print(calls: &[u32], answers: &[u64], n: usize, first: u64, out: &mut [u8]) -> usize
    requires { (n * 5 ≤ length calls.now) × (n ≤ length answers.now) × (n * 34 ≤ length out.old) × (first + n < 10000000000000000000)
        × ((k : ℕ) → k < n → get_or answers.now k 0 < 0x300000000) }
    ensures { spec.Laid out.old out.new 0 result (n * 34)
        (spec.code_lines n first calls.now answers.now 0) }
{
    let mut at: usize = 0;
    for k in 0..n {
        let signed = calls[k * 5] == 1;
        at = put_line(out, at, first + k as u64, answers[k], signed);
    }
    at
}
