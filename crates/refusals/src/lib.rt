// The refusals with their numbers, and those that the lengths and the call alone decide: the first row met is the error.
#![tactic(auto, unfolding(values::specs::Rows::first_met))]

ghost use Rattle.std.specs.Prelude.{◌≡◌, true, false, not, [], ◌∷◌, ℕ, ◌<◌, leb, OnOk};
ghost use Rattle.values.specs.Bits.{bit};
ghost use Rattle.values.specs.Control.{listed};
ghost use Rattle.values.specs.Counts.{count_limit};
ghost use Rattle.values.specs.Lists.{all};
ghost use Rattle.values.specs.Kinds.{is_store};
ghost use Rattle.words.specs.Words.{is_width};
ghost use Rattle.refusals.specs.Numbers.{number_of, refusal_code};
ghost use Rattle.refusals.specs.Refusals as spec;
ghost use Rattle.refusals.specs.Refusals.{refusal_in};

use values::{Access, Call, Count, Kind, Transfer};

// A refusal: document 01's 1 to 12, and document 02's 13 to 16. `number_of` gives its number.
#[derive(Clone, Copy, PartialEq, Eq)]
pub enum Refusal {
    Memory = 1,
    Store = 2,
    State = 3,
    Length = 4,
    Count = 5,
    Width = 6,
    Value = 7,
    User = 8,
    Register = 9,
    Operation = 10,
    BigEndian = 11,
    Control = 12,
    Line = 13,
    Text = 14,
    Room = 15,
    Map = 16,
}

// The number of a refusal.
impl From<Refusal> for u32 {
    ghost from_gives = { λ r n. n ≡ number_of r };

    fn from(r: Refusal) -> u32 {
        r as u32
    }
}

// Whether a memory's length is a multiple of 32 up to 16,777,216.
pub fn length_fits(n: usize) -> bool
    ensures { result ≡ spec.length_fits n }
{
    n % 32 == 0 && n <= 0x1000000
}

// Refusals 1 and 2, by the lengths of memory and cache store.
pub fn lent_refusal(memory: usize, store: usize) -> Result<(), Refusal>
    ensures { refusal_code result ≡ refusal_in (spec.row1 memory ∷ spec.row2 store ∷ []) }
{
    if !length_fits(memory) {
        return Err(Refusal::Memory);
    }
    if store != 16384 {
        return Err(Refusal::Store);
    }
    Ok(())
}

// Whether no byte of a map exceeds 1: its greatest does not.
fn bytes_low(bad: &[u8]) -> bool
    ensures { result ≡ all (λ (b : ℕ). leb b 1) bad.now }
{
    bad.iter().fold(0, |most, b| most.max(*b)) <= 1
}

// Whether a map fits a memory of n bytes: one byte a word, none of which exceeds 1.
pub fn map_fits(n: usize, bad: &[u8]) -> bool
    ensures { result ≡ spec.map_fits n bad.now }
{
    n % 4 == 0 && bad.len() == n / 4 && bytes_low(bad)
}

// Refusal 5, by the count of calls.
pub fn count_refusal(calls: Count) -> Result<(), Refusal>
    ensures number { refusal_code result ≡ refusal_in (spec.row5 calls ∷ []) }
    ensures low { OnOk result (calls < count_limit) }
{
    if calls == values::COUNT_LIMIT {
        return Err(Refusal::Count);
    }
    Ok(())
}

// Refusals 6 and 7 of an access that stores, with a width of 1, 2 or 4. A swap has no width of 2.
fn store_refusal(width: u32, k: Kind) -> Result<(), Refusal>
    requires { (is_width width ≡ true) × (is_store k ≡ true) }
    ensures { refusal_code result
        ≡ refusal_in (spec.refuses 6 (not (spec.width_fits width k)) ∷ spec.refuses 7 (not (spec.value_fits width k)) ∷ []) }
{
    if width == 2 && values::is_swap(k) {
        return Err(Refusal::Width);
    }
    if !words::fits_width(width, values::stored_value(k)) {
        return Err(Refusal::Value);
    }
    Ok(())
}

// Refusals 6 and 7 of an access.
pub fn access_refusal(a: Access) -> Result<(), Refusal>
    ensures { refusal_code result ≡ refusal_in (spec.row6 a ∷ spec.row7 a ∷ []) }
{
    if !words::is_width(a.width) {
        return Err(Refusal::Width);
    }
    if values::is_store(a.kind) {
        return store_refusal(a.width, a.kind);
    }
    Ok(())
}

// Refusals 8 and 9 of a read.
fn read_refusal(t: Transfer) -> Result<(), Refusal>
    ensures { refusal_code result ≡ refusal_in (spec.transfer_rows t false 0) }
{
    if !t.privileged {
        Err(Refusal::User)
    } else if t.register > 6 {
        Err(Refusal::Register)
    } else {
        Ok(())
    }
}

// Refusals 11 and 12 of a value for the control register.
fn control_refusal(v: u32) -> Result<(), Refusal>
    ensures { refusal_code result ≡ refusal_in (spec.refuses 11 (bit v 7) ∷ spec.refuses 12 (not (listed v)) ∷ []) }
{
    if v / 0x80 % 2 == 1 {
        return Err(Refusal::BigEndian);
    }
    if !registers::is_listed(v) {
        return Err(Refusal::Control);
    }
    Ok(())
}

// Refusals 8 to 12 of a write.
fn write_refusal(t: Transfer, v: u32) -> Result<(), Refusal>
    ensures { refusal_code result ≡ refusal_in (spec.transfer_rows t true v) }
{
    if !t.privileged {
        return Err(Refusal::User);
    }
    match t.register {
        1 => control_refusal(v),
        2..=6 => Ok(()),
        7 | 8 if registers::is_listed_pair(t) => Ok(()),
        7 | 8 => Err(Refusal::Operation),
        _ => Err(Refusal::Register),
    }
}

// Refusals 6 to 12.
pub fn call_refusal(c: Call) -> Result<(), Refusal>
    ensures { refusal_code result ≡ spec.call_refusal c }
{
    match c {
        Call::Access(a) => access_refusal(a),
        Call::Read(t) => read_refusal(t),
        Call::Write(t, v) => write_refusal(t, v),
    }
}
