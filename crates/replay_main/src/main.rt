// Replays a trace kept as text: standard input to standard output, in blocks, on 65,536 zero bytes of memory with no bad word.
#![tactic(auto)]

ghost use Rattle.std.specs.Prelude.{length, ◌+◌, ◌≤◌, IfOk, IfSome};

use replay::Replay;
use std::env::{Env, FillError};
use std::io;
use std::io::{Read, Stderr, Stdin, Stdout, Write};

// One part from a place of a block on: the lines that it prints are written. None where the replay cannot go on, which is said.
fn replay_from(
    mut to: Stdout,
    mut err: Stderr,
    replay: Replay,
    memory: &mut [u8],
    bad: &[u8],
    store: &mut [u8],
    block: &[u8],
    at: usize,
    ends: u32,
    out: &mut [u8],
) -> io::Result<Option<Replay>>
    requires { at ≤ length block.now }
    ensures { IfOk result (λ o. IfSome o (λ r. at + r.taken ≤ length block.now)) }
{
    let p = replay::replay_part(replay, memory, bad, store, &block[at..], ends, out);
    if p.refusal != 0 {
        err.write_all(b"replay: more lines than are counted\n")?;
        return Ok(None);
    }
    let after = p.replay;
    to.write_all(&out[..after.written])?;
    Ok(Some(after))
}

// A block of the input, part by part, until nothing of it is taken and nothing is written; none where the replay cannot go on.
fn replay_block(
    to: Stdout,
    err: Stderr,
    mut replay: Replay,
    memory: &mut [u8],
    bad: &[u8],
    store: &mut [u8],
    block: &[u8],
    ends: u32,
    out: &mut [u8],
) -> io::Result<Option<Replay>> {
    let mut at: usize = 0;
    // a proved loop has to end: no block takes so many parts
    for _ in 0..u64::MAX {
        let Some(next) = replay_from(to, err, replay, memory, bad, store, block, at, ends, out)?
        else {
            return Ok(None);
        };
        if next.taken == 0 && next.written == 0 {
            return Ok(Some(next));
        }
        at += next.taken;
        replay = next;
    }
    Ok(None)
}

// Reads a block and replays it; none where the replay ends. Where the input ends, so does the text: a line that has begun departs.
fn replay_input(
    mut from: Stdin,
    to: Stdout,
    err: Stderr,
    replay: Replay,
    memory: &mut [u8],
    bad: &[u8],
    store: &mut [u8],
    block: &mut [u8],
    out: &mut [u8],
) -> io::Result<Option<Replay>> {
    let n = from.read(block)?;
    if n == 0 {
        replay_block(to, err, replay, memory, bad, store, &[], 1, out)?;
        return Ok(None);
    }
    let after = replay_block(to, err, replay, memory, bad, store, &block[..n], 0, out)?;
    Ok(after.filter(|r| r.stopped == 0))
}

// Whether the program is called with arguments. Two programs have this function: a crate for it would be longer than these lines.
fn has_arguments(rt: &impl Env) -> bool {
    let mut first = [0u8; 1];
    match rt.arg(1, &mut first) {
        Err(FillError::NotPresent) => false,
        _ => true,
    }
}

fn print_usage(mut err: Stderr) -> io::Result<()> {
    err.write_all(b"usage: replay <TRACE\n")?;
    err.write_all(
        b"Reads calls from standard input, one a line, five decimal fields parted by commas: call (0 load, 1 signed load, 2 store,\n",
    )?;
    err.write_all(
        b"3 CP15 read, 4 CP15 write), privileged (1 or 0), width or register, address or opcode 2 x 16 + CRm, value. Makes them on\n",
    )?;
    err.write_all(
        b"65536 zero bytes of memory and prints a line for each: number, kind (0 served, 1 fault, 2 refused), value.\n",
    )
}

fn main(rt: HostRuntime) -> io::Result<()> {
    if has_arguments(&rt) {
        return print_usage(rt.stderr());
    }
    let mut memory = [0u8; 65536];
    let bad = [0u8; 16384];
    let mut store = [0u8; 16384];
    let mut block = [0u8; 65536];
    let mut out = [0u8; 65536];
    let mut replay = replay::replay_start(&memory, &store).replay;
    // a proved loop has to end: no input has so many blocks
    for _ in 0..u64::MAX {
        let Some(next) = replay_input(
            rt.stdin(),
            rt.stdout(),
            rt.stderr(),
            replay,
            &mut memory,
            &bad,
            &mut store,
            &mut block,
            &mut out,
        )?
        else {
            return Ok(());
        };
        replay = next;
    }
    Ok(())
}
