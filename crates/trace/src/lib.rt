// Calls and answers as numbers, for runs over lent lists: five numbers a call and one an answer, as C lends them.
#![tactic(auto)]

ghost use Rattle.std.specs.Prelude.{◌≡◌, ℕ, ◌+◌, ◌*◌, ◌/◌, ◌≤◌, min, length, get_or};
ghost use Rattle.trace.specs.Calls as spec;
ghost use Rattle.trace.specs.Codes as codes;

use values::{Access, Answer, Call, Kind, Transfer, VirtualAddress};

// What an answer's kind counts in its number: the value below it has 32 bits.
pub const KIND_UNIT: u64 = 0x100000000;

// What numbers that are no call answer: 3 × KIND_UNIT.
pub const NO_CALL: u64 = 0x300000000;

fn access_of(kind: Kind, privileged: u32, width: u32, address: u32) -> Access
    ensures { result ≡ spec.access_of kind privileged width address }
{
    Access {
        kind,
        privileged: privileged == 1,
        width,
        address: VirtualAddress(address),
    }
}

fn transfer_of(privileged: u32, register: u32, pair: u32) -> Transfer
    ensures { result ≡ spec.transfer_of privileged register pair }
{
    Transfer {
        privileged: privileged == 1,
        register,
        opcode: pair / 16,
        crm: pair % 16,
    }
}

// What an access of this number does, with the value of its fifth number: 0 load, 1 signed load, 2 store, and swap.
#[tactic(auto, unfolding(crate::specs::Calls::call_of))]
fn kind_of(kind: u32, v: u32) -> Kind
    ensures { (kind ≡ 3 → ⊥) → (kind ≡ 4 → ⊥) → (privileged n a : ℕ)
        → spec.call_of kind privileged n a v ≡ Call.Access (spec.access_of result privileged n a) }
{
    match kind {
        0 => Kind::Load,
        1 => Kind::SignedLoad,
        2 => Kind::Store(v),
        _ => Kind::Swap(v),
    }
}

// The call of five numbers.
#[tactic(auto, unfolding(crate::specs::Calls::call_of))]
pub fn call_of(kind: u32, privileged: u32, n: u32, a: u32, v: u32) -> Call
    ensures { result ≡ spec.call_of kind privileged n a v }
{
    match kind {
        3 => Call::Read(transfer_of(privileged, n, a)),
        4 => Call::Write(transfer_of(privileged, n, a), v),
        _ => Call::Access(access_of(kind_of(kind, v), privileged, n, a)),
    }
}

// Call i of a list of five numbers a call.
pub fn call_at(list: &[u32], i: usize) -> Call
    requires { i * 5 + 5 ≤ length list.now }
    ensures { result ≡ spec.call_at list.now i }
{
    let at = i * 5;
    call_of(
        list[at],
        list[at + 1],
        list[at + 2],
        list[at + 3],
        list[at + 4],
    )
}

// The access that call i is, where its number is neither 3 nor 4.
pub fn access_at(list: &[u32], i: usize) -> Access
    requires { i * 5 + 5 ≤ length list.now }
    ensures { (get_or list.now (i * 5) 0 ≡ 3 → ⊥) → (get_or list.now (i * 5) 0 ≡ 4 → ⊥)
        → spec.call_at list.now i ≡ Call.Access result }
{
    let at = i * 5;
    let kind = kind_of(list[at], list[at + 4]);
    access_of(kind, list[at + 1], list[at + 2], list[at + 3])
}

// The transfer of call i, a CP15 read or write.
pub fn transfer_at(list: &[u32], i: usize) -> Transfer
    requires { i * 5 + 5 ≤ length list.now }
    ensures { result
        ≡ spec.transfer_of (get_or list.now (i * 5 + 1) 0) (get_or list.now (i * 5 + 2) 0) (get_or list.now (i * 5 + 3) 0) }
{
    let at = i * 5;
    transfer_of(list[at + 1], list[at + 2], list[at + 3])
}

// Whether the five numbers of entry i are a call.
pub fn is_call_at(list: &[u32], i: usize) -> bool
    requires { i * 5 + 5 ≤ length list.now }
    ensures { result ≡ spec.is_call_at list.now i }
{
    let at = i * 5;
    list[at] <= 5 && list[at + 1] <= 1
}

// An answer as one number.
pub fn code(a: Answer) -> u64
    ensures { result ≡ codes.code_of a }
{
    match a {
        Answer::Value(v) => v as u64,
        Answer::Signed(z) => z.cast_unsigned() as u64,
        Answer::Fault(f) => {
            KIND_UNIT + (f.domain as u64) * 16 + (values::status_number(f.status) as u64)
        },
        Answer::Refused(n) => 2 * KIND_UNIT + (n as u64),
    }
}

// How many calls of five numbers the lists of calls and answers hold.
pub fn calls_held(calls: &[u32], answers: &[u64]) -> usize
    ensures { result ≡ min (length calls.now / 5) (length answers.now) }
{
    (calls.len() / 5).min(answers.len())
}
