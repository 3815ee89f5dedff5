// A data access on the library's machine: alignment, translation and rights are decided, then TLB and misses change, then the access is made.
#![tactic(auto)]

ghost use Rattle.std.specs.Prelude.{◌≡◌, true, ℕ, length};
ghost use Rattle.words.specs.Words.{is_width};
ghost use Rattle.rights.specs.Rights.{rights_table};
ghost use Rattle.translation.specs.Alignment as aligned;
ghost use Rattle.translation.specs.Ranges.{PlaceRanged};
ghost use Rattle.machine.specs.Lists.{machine_of, stepped_of, Leaves, lists_of, Kept};
ghost use Rattle.machine.specs.Machine.{Machine};
ghost use Rattle.machine.specs.Ready.{TlbReady, SideReady};
ghost use Rattle.access.specs.Access as spec;

use machine::{Lent, Outcome, Scalars};
use translation::Place;
use values::Access;

// An access that passed, by its kind.
fn passed(side: &mut Lent, s: Scalars, a: Access, p: Place) -> Outcome
    requires { SideReady (lists_of side.old) s × (is_width a.width ≡ true) × PlaceRanged (aligned.cleared a) p }
    ensures { Leaves (lists_of side.old) s (lists_of side.new) result (λ (m : Machine). spec.passed m a p a.kind) × Kept side.old side.new }
{
    let k = a.kind;
    if values::is_store(k) {
        return swaps::store_or_swap(
            side.memory,
            side.bad,
            side.words,
            side.bytes,
            side.lines,
            side.store,
            s,
            a,
            values::stored_value(k),
            p,
        );
    }
    loads::load(side, s, a, p)
}

// An access of width 1, 2 or 4.
pub fn serve(
    table: &[u8; 256],
    side: &mut Lent,
    entries: &mut [u64],
    s: Scalars,
    a: Access,
) -> Outcome
    requires { (table.now ≡ rights_table) × TlbReady entries.old s × SideReady (lists_of side.old) s × (is_width a.width ≡ true) }
    ensures { ((size : ℕ) → stepped_of (lists_of side.new) entries.new size result
        ≡ spec.access (machine_of (lists_of side.old) entries.old s size) a)
        × (length side.new.bytes.now ≡ 8) × Kept side.old side.new }
{
    let address = a.address;
    let r = s.cp15.registers;
    let bad = side.bad;
    let memory = &mut *side.memory;
    let d = reach::decide(table, memory, bad, entries, r, a);
    let t = d.mapping;
    let c = d.checked;
    let left = reach::commit(entries, s, t);
    match c {
        Ok(p) => passed(side, left, a, p),
        Err(why) => reach::faulted(left, why.status, why.domain, address),
    }
}
