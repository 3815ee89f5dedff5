// How calls and answers are printed.

use std::fmt;
use values::{Access, Answer, Call, Fault, Kind};

// What the formats below print: a call, an access, an answer or a fault.
#[derive(Clone, Copy)]
pub struct Shown<T>(pub T);

// An answer of a run: its kind × 2^32 + its value.
#[derive(Clone, Copy)]
pub struct Code(pub u64);

impl fmt::Display for Shown<Access> {
    fn fmt<W: fmt::Write>(&self, f: &mut fmt::Formatter<W>) -> fmt::Result {
        let access = self.0;
        let (name, stored) = match access.kind {
            Kind::Load => ("load  ", None),
            Kind::SignedLoad => ("signed", None),
            Kind::Store(v) => ("store ", Some(v)),
            Kind::Swap(v) => ("swap  ", Some(v)),
        };
        write!(f, "{name} {:02} at {:08x}", access.width, access.address.0)?;
        match stored {
            Some(v) => write!(f, " = {v:08x} "),
            None => write!(f, "{:12}", ""),
        }
    }
}

// A call in words, in one width for all.
impl fmt::Display for Shown<Call> {
    fn fmt<W: fmt::Write>(&self, f: &mut fmt::Formatter<W>) -> fmt::Result {
        let privileged = match self.0 {
            Call::Access(a) => a.privileged,
            Call::Read(t) => t.privileged,
            Call::Write(t, _) => t.privileged,
        };
        let mode = if privileged { "privileged" } else { "user" };
        write!(f, "{mode:10} ")?;
        match self.0 {
            Call::Access(a) => write!(f, "{}", Shown(a)),
            Call::Read(t) => write!(f, "read   register {:02}{:15}", t.register, ""),
            Call::Write(t, v) => write!(f, "write  register {:02} = {v:08x}    ", t.register),
        }
    }
}

impl fmt::Display for Shown<Fault> {
    fn fmt<W: fmt::Write>(&self, f: &mut fmt::Formatter<W>) -> fmt::Result {
        let fault = self.0;
        let status = values::status_number(fault.status);
        let address = fault.address.0;
        write!(
            f,
            "fault, status {status:02} domain {:02} address {address:08x}",
            fault.domain
        )
    }
}

impl fmt::Display for Shown<Answer> {
    fn fmt<W: fmt::Write>(&self, f: &mut fmt::Formatter<W>) -> fmt::Result {
        match self.0 {
            Answer::Value(v) => write!(f, "value {v:08x}"),
            Answer::Signed(z) => {
                let sign = if z < 0 { '-' } else { '+' };
                write!(f, "signed {sign}{:08x}", z.unsigned_abs())
            }
            Answer::Fault(fault) => write!(f, "{}", Shown(fault)),
            Answer::Refused(n) => write!(f, "refused by {n:02}"),
        }
    }
}

impl fmt::Display for Code {
    fn fmt<W: fmt::Write>(&self, f: &mut fmt::Formatter<W>) -> fmt::Result {
        let value = self.0 % trace::KIND_UNIT;
        match self.0 / trace::KIND_UNIT {
            0 => write!(f, "value {value:08x}"),
            1 => write!(
                f,
                "fault, status {:02} domain {:02}",
                value % 16,
                value / 16
            ),
            _ => write!(f, "refused by {value:02}"),
        }
    }
}
