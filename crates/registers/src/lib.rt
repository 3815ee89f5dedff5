// The registers of coprocessor 15, and the operation pairs of registers 7 and 8.
#![tactic(auto)]

ghost use Rattle.std.specs.Prelude.{◌≡◌, ◌<◌};
ghost use Rattle.values.specs.Control as control;
ghost use Rattle.registers.specs.Pairs as pairs;
ghost use Rattle.registers.specs.Registers as spec;

use values::{Registers, Transfer};

// The bits of a control write that are kept.
#[tactic(auto, unfolding(values::specs::Control::kept))]
pub fn kept(v: u32) -> u32
    ensures { result ≡ control.kept v }
{
    v % 0x10 + v / 0x100 % 4 * 0x100 + v / 0x1000 % 2 * 0x1000
}

// Whether a control value's M, C and W are a listed combination.
#[tactic(auto, unfolding(values::specs::Control::listed))]
pub fn is_listed(v: u32) -> bool
    ensures { result ≡ control.listed v }
{
    matches!(
        (v % 2, v / 4 % 2, v / 8 % 2),
        (0, 0, 0) | (1, 0, _) | (1, 1, 1)
    )
}

// What a read of a register answers.
#[tactic(auto, unfolding(crate::specs::Registers::read_of, values::specs::Control::control_read))]
pub fn read(r: Registers, n: u32) -> u32
    requires { r.control < 0x2000 }
    ensures { result ≡ spec.read_of r n }
{
    match n {
        0 => 0x4401A100,
        1 => r.control + 0x70,
        2 => r.base,
        3 => r.domains,
        5 => r.fsr,
        6 => r.far,
        _ => 0,
    }
}

// The registers after a write.
#[tactic(auto, unfolding(crate::specs::Registers::written_of))]
pub fn written(r: Registers, n: u32, v: u32) -> Registers
    ensures { result ≡ spec.written_of r n v }
{
    let mut s = r;
    match n {
        1 => s.control = kept(v),
        2 => s.base = v / 0x4000 * 0x4000,
        3 => s.domains = v,
        5 => s.fsr = v % 0x100,
        6 => s.far = v,
        _ => {}
    }
    s
}

// Whether opcode 2 and CRm are a pair.
pub fn is_pair(t: Transfer, opcode: u32, crm: u32) -> bool
    ensures { result ≡ pairs.is_pair t opcode crm }
{
    t.opcode == opcode && t.crm == crm
}

// Whether the pair of a write of register 7 or 8 is listed.
pub fn is_listed_pair(t: Transfer) -> bool
    ensures { result ≡ pairs.listed_pair t }
{
    match (t.opcode, t.crm) {
        (0, 5..=7) | (1, 6) => true,
        (1 | 4, 10) => t.register == 7,
        _ => false,
    }
}
