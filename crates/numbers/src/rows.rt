// Rows of numbers, one behind another in a list: each kind of thing in a text has its own number of them.
ghost use Rattle.std.specs.Prelude.{◌≡◌, true, ℕ, List, get_or, ◌+◌, ◌*◌, ◌≤◌, ◌<◌, length};
ghost use Rattle.printed.specs.Code.{over};
ghost use Rattle.numbers.specs.Code as code;

use std::convert::AsSlice;

// Numbers laid over a list, from a place on.
pub fn put(numbers: &mut [u32], at: usize, part: &[u32])
    requires { at + length part.now ≤ length numbers.old }
    ensures { numbers.new ≡ over numbers.old at part.now }
{
    numbers[at..at + part.len()].copy_from_slice(part);
}

// Whether a list has these numbers, from a place on.
pub fn same(numbers: &[u32], at: usize, part: &[u32]) -> bool
    requires { at + length part.now ≤ length numbers.now }
    ensures { (result ≡ true → code.part numbers.now at (length part.now) ≡ part.now)
        × (code.part numbers.now at (length part.now) ≡ part.now → result ≡ true) }
{
    &numbers[at..at + part.len()] == part
}

// The row at a place.
pub(crate) fn row_at<const N: usize>(numbers: &[u32], at: usize) -> [u32; N]
    requires { at + N ≤ length numbers.now }
    ensures { result ≡ code.part numbers.now at N }
{
    let mut row = [0u32; N];
    row.copy_from_slice(&numbers[at..at + N]);
    row
}

// The rows of n things, each of `width` numbers, laid from a place on. A row's type is a parameter and its length a number: a bound `Fn` of a const
// parameter's array gets no proof.
pub(crate) fn put_rows<R: AsSlice<u32> + Copy, F: Fn(usize) -> R>(
    numbers: &mut [u32],
    from: usize,
    width: usize,
    n: usize,
    row: F,
)
    requires callable { (i : ℕ) → i < n → F.pre row i }
    requires wide { (i : ℕ) (r : R) → i < n → F.post row i r → length (R.items r) ≡ width }
    requires room { from + n * width ≤ length numbers.old }
    requires long { length numbers.old ≤ 0x10000 }
    ensures { (rows : ℕ → List ℕ) → ((i : ℕ) (r : R) → i < n → F.post row i r → R.items r ≡ rows i)
        → numbers.new ≡ over numbers.old from (code.rows_from rows 0 n) }
{
    let mut at = from;
    for i in 0..n {
        put(numbers, at, row(i).as_slice());
        at += width;
    }
}

// Whether the rows of n things, each of `width` numbers, stand from a place on.
pub(crate) fn same_rows<R: AsSlice<u32> + Copy, F: Fn(usize) -> R>(
    numbers: &[u32],
    from: usize,
    width: usize,
    n: usize,
    row: F,
) -> bool
    requires callable { (i : ℕ) → i < n → F.pre row i }
    requires wide { (i : ℕ) (r : R) → i < n → F.post row i r → length (R.items r) ≡ width }
    requires room { from + n * width ≤ length numbers.now }
    requires long { length numbers.now ≤ 0x10000 }
    ensures { code.RowsSame numbers.now from width n (λ i ns. (r : R) × F.post row i r × (R.items r ≡ ns)) result }
{
    let mut at = from;
    for i in 0..n {
        if !same(numbers, at, row(i).as_slice()) {
            return false;
        }
        at += width;
    }
    true
}

// Things worked out by their places, into a list.
pub(crate) fn set_each<T: Copy, F: Fn(usize) -> T>(things: &mut [T], of: F)
    requires { (i : ℕ) → i < length things.old → F.pre of i }
    ensures { (length things.new ≡ length things.old)
        × ((i : ℕ) (d : T) → i < length things.old → F.post of i (get_or things.new i d)) }
{
    for i in 0..things.len() {
        things[i] = of(i);
    }
}
