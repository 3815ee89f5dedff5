// Lines of text read as calls: five decimal fields parted by commas.
#![tactic(auto)]

ghost use Rattle.std.specs.Prelude.{◌≡◌, cond, ◌||◌, ◌+◌, ◌-◌, ◌*◌, ◌≤◌, ◌<◌, leb, length, drop, IfSome};
ghost use Rattle.fields.specs.Lines as lines;
ghost use Rattle.fields.specs.Parse as parses;
ghost use Rattle.fields.specs.Code as code;

// The greatest number of a field.
const GREATEST: u64 = 0xFFFFFFFF;

// The greatest number that a text has for a call.
const LAST_CALL: u32 = 4;

// The bytes of the longest line, with its line feed.
pub const LONGEST: usize = 64;

const FEED: u8 = 10;

const COMMA: u8 = 44;

// What comes behind the lines read: lines that may come, a line that is not decided, or a line that departs.
#[derive(Clone, Copy)]
pub enum Verdict {
    More,
    Open,
    Departs,
}

// A number of 32 bits, and the place behind its digits.
#[derive(Clone, Copy)]
pub struct Number {
    pub value: u32,
    pub end: usize,
}

// A digit's number.
fn digit(b: u8) -> u64
    requires { 48 ≤ b }
    ensures { result ≡ b - 48 }
{
    (b - 48) as u64
}

// The number of the digits from a place on; none where it is above that of any field.
fn read_number(text: &[u8], from: usize) -> Option<Number>
    requires { from ≤ length text.now }
    ensures { code.Reads (code.digits_of (drop from text.now)) from result × IfSome result (λ n. n.end ≤ length text.now) }
{
    let mut value: u64 = 0;
    for i in from..text.len() {
        let b = text[i];
        if !b.is_ascii_digit() {
            return Some(Number {
                value: value as u32,
                end: i,
            });
        }
        value = value * 10 + digit(b);
        if value > GREATEST {
            return None;
        }
    }
    Some(Number {
        value: value as u32,
        end: text.len(),
    })
}

// A field, and how many bytes it has with the byte behind it.
#[derive(Clone, Copy)]
pub struct Field {
    pub value: u32,
    pub size: usize,
}

// The field at a place, with the byte `by` behind it.
pub fn read_field(text: &[u8], from: usize, by: u8) -> Option<Field>
    requires { (from ≤ length text.now) × (1 ≤ by) }
    ensures { (result ≡ code.field_at by (drop from text.now)) × IfSome result (λ f. from + f.size ≤ length text.now) }
{
    let n = read_number(text, from)?;
    let end = n.end;
    if end == from || end == text.len() || text[end] != by {
        return None;
    }
    Some(Field {
        value: n.value,
        size: end + 1 - from,
    })
}

// The byte behind field i of five.
fn behind(i: usize) -> u8
    requires { i < 5 }
    ensures { result ≡ code.behind (4 - i) }
{
    if i < 4 { COMMA } else { FEED }
}

// Whether the five numbers of entry k are a call that a text has.
fn is_text_call_at(calls: &[u32], k: usize) -> bool
    requires { k * 5 + 5 ≤ length calls.now }
    ensures { result ≡ lines.is_text_call_at calls.now k }
{
    trace::is_call_at(calls, k) && calls[k * 5] <= LAST_CALL
}

// The line at a place, read as call k of a list of five numbers a call: its size; none where it departs.
fn read_line(text: &[u8], from: usize, calls: &mut [u32], k: usize) -> Option<usize>
    requires { (from ≤ length text.now) × (k * 5 + 5 ≤ length calls.old) }
    ensures { code.LineRead (drop from text.now) calls.old calls.new k result
        × IfSome result (λ size. from + size ≤ length text.now) }
{
    let mut at = from;
    for i in 0..5 {
        let f = read_field(text, at, behind(i))?;
        calls[k * 5 + i] = f.value;
        at += f.size;
    }
    if at - from <= LONGEST && is_text_call_at(calls, k) {
        return Some(at - from);
    }
    None
}

// Whether the line at a place has ended, or has 64 bytes without an end.
fn is_decided(text: &[u8], from: usize) -> bool
    requires { from ≤ length text.now }
    ensures { result ≡ ((parses.first_line (drop from text.now)).ended
        || leb 64 (length (parses.first_line (drop from text.now)).bytes)) }
{
    let rest = &text[from..];
    rest.len() >= LONGEST || rest.contains(&FEED)
}

// What comes at a place whose line, as far as the text goes, has not the form of a line: one that departs, or one that is not decided.
fn verdict_at(text: &[u8], from: usize, ends: bool) -> Verdict
    requires { from ≤ length text.now }
    ensures { parses.verdict_number result ≡ cond (parses.decided ends (drop from text.now)) parses.departing parses.open_line }
{
    if is_decided(text, from) || from < text.len() && ends {
        return Verdict::Departs;
    }
    Verdict::Open
}

// How many lines were read, the place behind them, and what comes there.
#[derive(Clone, Copy)]
pub struct Parsed {
    pub made: usize,
    pub end: usize,
    pub verdict: Verdict,
}

// At most n lines at the front of a text, read into a list of five numbers a call.
pub fn parse(text: &[u8], ends: bool, calls: &mut [u32], n: usize) -> Parsed
    requires { n * 5 ≤ length calls.old }
    ensures { code.LinesRead (parses.parse ends n text.now) calls.new result
        × (result.end ≤ length text.now) × (result.made ≤ n) }
{
    let mut at: usize = 0;
    for k in 0..n {
        let Some(size) = read_line(text, at, calls, k) else {
            return Parsed {
                made: k,
                end: at,
                verdict: verdict_at(text, at, ends),
            };
        };
        at += size;
    }
    Parsed {
        made: n,
        end: at,
        verdict: Verdict::More,
    }
}
