// Alignment, translation by TLB or walk, and rights: what is decided of an access, and the change of TLB and misses behind it.
#![tactic(auto)]

ghost use Rattle.std.specs.Prelude.{◌≡◌, List, ℕ, ◌<◌, ◌%◌, length, get_or, true};
ghost use Rattle.words.specs.Words.{is_width};
ghost use Rattle.rights.specs.Rights.{rights_table};
ghost use Rattle.bus.specs.Physical.{physical};
ghost use Rattle.walk.specs.Ranges.{InRange};
ghost use Rattle.tlb.specs.Packing.{entry_of, entries_of};
ghost use Rattle.translation.specs.Alignment as aligned;
ghost use Rattle.translation.specs.Translation as mapped;
ghost use Rattle.translation.specs.Ranges.{Is, Ranged};
ghost use Rattle.machine.specs.Lists.{Lists, machine_of, stepped_of};
ghost use Rattle.machine.specs.Ready.{TlbReady};
ghost use Rattle.reach.specs.Reach as spec;
ghost use Rattle.reach.specs.Code.{DecisionIs, Stay};

use machine::{Outcome, Scalars};
use translation::{Decision, Translation};
use values::{Access, Answer, Cause, Fault, Registers, Status, VirtualAddress};

// The TLB's entry that covers the address, or a walk.
fn translate(
    memory: &[u8],
    bad: &[u8],
    entries: &[u64],
    r: Registers,
    va: VirtualAddress,
) -> Result<Translation, Cause>
    requires { (length entries.now ≡ 32) × ((i : ℕ) → i < 32 → InRange (entry_of (get_or entries.now i 0))) × (r.base % 0x4000 ≡ 0) }
    ensures { Is result (mapped.translation (entries_of entries.now) r (physical memory.now bad.now) va) }
{
    if values::mmu(r) {
        let found = tlb::lookup(entries, va);
        match found {
            Some(i) => Ok(Translation::Held(tlb::entry_of(entries[i]))),
            None => translation::of_walk(walk::walk(memory, bad, r.base, va)),
        }
    } else {
        Ok(Translation::Flat)
    }
}

// Which mapping serves an access, and whether alignment, translation and rights pass.
pub fn decide(
    table: &[u8; 256],
    memory: &[u8],
    bad: &[u8],
    entries: &[u64],
    r: Registers,
    a: Access,
) -> Decision
    requires { (table.now ≡ rights_table) × (length entries.now ≡ 32) × ((i : ℕ) → i < 32 → InRange (entry_of (get_or entries.now i 0)))
        × (r.base % 0x4000 ≡ 0) × (is_width a.width ≡ true) }
    ensures { DecisionIs a result
        (mapped.decided r a (mapped.translation (entries_of entries.now) r (physical memory.now bad.now)
        (aligned.cleared a))) }
{
    if translation::faults_alignment(r, a) {
        return Decision {
            mapping: Ok(Translation::Flat),
            checked: Err(Cause::new(Status::Alignment, 0)),
        };
    }
    let va = translation::cleared(a);
    let t = translate(memory, bad, entries, r, va);
    let checked = translation::check(table, r, a, t);
    Decision {
        mapping: t,
        checked,
    }
}

// A mapping that a walk found goes to the TLB, and a walk is a miss.
pub fn commit(entries: &mut [u64], s: Scalars, t: Result<Translation, Cause>) -> Scalars
    requires { TlbReady entries.old s × Ranged t }
    ensures { ((l : Lists) (size : ℕ) → machine_of l entries.new result size
        ≡ spec.committed (machine_of l entries.old s size) t) × Stay result s }
{
    match t {
        Ok(mapping) => match mapping {
            Translation::Flat => s,
            Translation::Held(_) => s,
            Translation::Walked(e) => {
                let pointer = s.cp15.pointer;
                tlb::place(entries, pointer, e);
                machine::missed(machine::with_pointer(s, tlb::next(pointer)))
            },
        },
        Err(_) => machine::missed(s),
    }
}

// A fault: FSR and FAR are set.
pub fn faulted(s: Scalars, status: Status, domain: u32, address: VirtualAddress) -> Outcome
    requires { domain < 16 }
    ensures { (l : Lists) (entries : List ℕ) (size : ℕ) → stepped_of l entries size result
        ≡ spec.faulted (machine_of l entries s size) status domain address }
{
    let f = Fault {
        status,
        domain,
        address,
    };
    let r = s.cp15.registers;
    let after = translation::fault_set(r, f);
    Outcome {
        scalars: machine::with_registers(s, after),
        answer: Answer::Fault(f),
    }
}
