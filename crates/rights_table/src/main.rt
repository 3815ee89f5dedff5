// Prints the access table of document 02, Six: the 256 entries of the rights table, worked out from the domain values and 001's table 2-3, each on a
// line as index, entry, rising.
#![tactic(auto)]

ghost use Rattle.std.specs.Prelude.{length, ◌≤◌};

use std::env::{Env, FillError};
use std::io;
use std::io::{Stderr, Stdout, Write};

// Whether the program is called with arguments. Two programs have this function: a crate for it would be longer than these lines.
fn has_arguments(rt: &impl Env) -> bool {
    let mut first = [0u8; 1];
    !matches!(rt.arg(1, &mut first), Err(FillError::NotPresent))
}

fn print_usage(mut err: Stderr) -> io::Result<()> {
    err.write_all(b"usage: rights_table\n")?;
    err.write_all(
        b"Prints the 256 entries of the rights table, one a line, rising: index, entry. They are worked out from the domain values\n",
    )?;
    err.write_all(
        b"and table 2-3 of document 001. Index: domain value x 64 + AP x 16 + S x 8 + R x 4 + privileged x 2 + store. Entry:\n",
    )?;
    err.write_all(b"0 allowed, 1 domain fault, 2 permission fault.\n")
}

// Lays the table's text into a list, and writes it to standard output.
fn print_table(mut out: Stdout, text: &mut [u8]) -> io::Result<()>
    requires { 2048 ≤ length text.old }
{
    let size = access_table::put_table(text);
    out.write_all(&text[..size])
}

fn main(rt: HostRuntime) -> io::Result<()> {
    if has_arguments(&rt) {
        return print_usage(rt.stderr());
    }
    let mut text = [0u8; 2048];
    print_table(rt.stdout(), &mut text)
}
