// A first run: a short list of calls on 64 KB of memory with page tables in it, what each answers, and the counts; the same list on the plain
// machine; then some calls one by one, looks, and loads of a line with a bad word.
#![tactic(auto)]

ghost use Rattle.std.specs.Prelude.{◌≡◌, length};

mod print;

use print::{Code, Shown};
use sa110::State;
use std::io;
use values::{Counts, Cp15, VirtualAddress};

// The calls, five numbers each: the call (0 load, 1 signed load, 2 store, 3 CP15 read, 4 CP15 write, 5 swap), privileged, the width or the register,
// the address (for registers 7 and 8 the operation), the value. They lie in one list, as a run takes them.
const CALLS: [u32; 85] = [
    3, 1, 1, 0, 0, // read register 1, control
    4, 1, 2, 0, 0x4000, // write register 2, table base
    4, 1, 3, 0, 5, // write register 3, domains
    4, 1, 8, 6, 0, // write register 8: flush the TLB
    4, 1, 1, 0, 15, // write register 1: MMU, alignment, Dcache, write buffer on
    2, 1, 4, 0x100010, 0xcafe1234, // store a word through a section
    0, 1, 4, 0x100010, 0, // load it
    1, 1, 1, 0x100013, 0, // signed load of its top byte
    2, 1, 2, 0x200480, 0xbeef, // store a halfword through a small page
    0, 1, 2, 0x200480, 0, // load it
    0, 0, 4, 0x200480, 0, // user load of that page
    3, 1, 5, 0, 0, // read register 5, FSR
    3, 1, 6, 0, 0, // read register 6, FAR
    0, 1, 4, 0x300000, 0, // load where level 1 has no entry
    0, 1, 4, 0x100012, 0, // load at an address that is no multiple of 4
    0, 1, 3, 0x100010, 0, // load of 3 bytes
    4, 1, 1, 0, 5, // write register 1: Dcache without write buffer
];

// The calls that follow one by one, of the same five numbers.
const SINGLE: [[u32; 5]; 4] = [
    [1, 1, 1, 0x100013, 0], // signed load of a byte
    [0, 1, 2, 0x200480, 0], // load of a halfword
    [0, 0, 4, 0x200480, 0], // user load of its page
    [2, 1, 1, 0x100010, 256], // store of a value that no byte holds
];

// The looks: into the cache store, into memory, and where nothing is mapped.
const LOOKS: [u32; 3] = [0x100010, 0x104004, 0x300000];

// Loads of the word before the bad one, and of the bad one.
const BY_BAD_WORD: [[u32; 5]; 2] = [[0, 1, 4, 0x104004, 0], [0, 1, 4, 0x104008, 0]];

// The page tables: at 4004 a section at 100000 onto 0, at 4008 a second-level table at 8000 for 200000 on, and at 8000 a small page onto 9000
// that privileged modes alone may use.
fn set_up(memory: &mut [u8])
    requires { length memory.old ≡ 65536 }
    ensures { length memory.new ≡ 65536 }
{
    words::store(memory, 0x4004, 4, 0xc0e);
    words::store(memory, 0x4008, 4, 0x8021);
    words::store(memory, 0x8000, 4, 0x905e);
}

// What the library is lent, and what it leaves beside that.
#[derive(Clone, Copy)]
struct Machine {
    memory: [u8; 65536],
    bad: [u8; 16384],
    store: [u8; 16384],
    state: State,
    cp15: Cp15,
}

impl Machine {
    // A started machine with the page tables in its memory.
    fn new() -> Machine {
        let mut memory = [0u8; 65536];
        set_up(&mut memory);
        let store = [0u8; 16384];
        let started = sa110::start(&memory, &store);
        Machine {
            memory,
            bad: [0u8; 16384],
            store,
            state: started.state,
            cp15: started.cp15,
        }
    }

    fn run(&mut self, calls: &[u32], answers: &mut [u64]) {
        let ran = sa110::run(
            self.state,
            self.cp15,
            &mut self.memory,
            &self.bad,
            &mut self.store,
            calls,
            answers,
        );
        self.state = ran.state;
        self.cp15 = ran.cp15;
    }

    // Makes one call, and prints it with its answer.
    fn call(&mut self, rt: &impl Print, numbers: &[u32; 5]) -> io::Result<()> {
        let c = trace::call_at(numbers, 0);
        let called = sa110::call(
            self.state,
            self.cp15,
            &mut self.memory,
            &self.bad,
            &mut self.store,
            c,
        );
        self.state = called.state;
        self.cp15 = called.cp15;
        println!(rt; "{}  {}", Shown(c), Shown(called.answer))
    }

    // Looks at an address, and prints the part: its bytes in words of four, or that it is empty.
    fn look(&self, rt: &impl Print, a: u32) -> io::Result<()> {
        print!(rt; "look at {a:08x}")?;
        let at = VirtualAddress(a);
        let part = sa110::look(
            self.state,
            self.cp15,
            &self.memory,
            &self.bad,
            &self.store,
            at,
        );
        if part.is_empty() {
            return println!(rt; " an empty part");
        }
        for (i, byte) in part.iter().enumerate() {
            let space = if i % 4 == 0 { " " } else { "" };
            print!(rt; "{space}{byte:02x}")?;
        }
        println!(rt; "")
    }
}

// The calls with their answers, and where the plain machine answers something else.
fn print_calls(rt: &impl Print, calls: &[u32], answers: &[u64], others: &[u64]) -> io::Result<()> {
    for (numbers, (answer, other)) in calls.chunks_exact(5).zip(answers.iter().zip(others)) {
        let c = trace::call_at(numbers, 0);
        println!(rt; "{}  {}", Shown(c), Code(*answer))?;
        if other != answer {
            println!(rt; "  the plain machine answers something else")?;
        }
    }
    Ok(())
}

fn print_counts(rt: &impl Print, c: Counts) -> io::Result<()> {
    print!(rt;
        "library: calls counted {:02}, TLB misses {:02}, ",
        c.calls, c.misses
    )?;
    println!(rt;
        "Dcache hits {:02}, line fills {:02}, halves sent out {:02}",
        c.hits, c.fills, c.halves
    )
}

// The list of calls on the plain machine: how many calls it counts.
fn run_plain(bad: &[u8], calls: &[u32], answers: &mut [u64]) -> u32 {
    let mut memory = [0u8; 65536];
    set_up(&mut memory);
    plain::run(&mut memory, bad, calls, answers).state.calls
}

fn main(rt: HostRuntime) -> io::Result<()> {
    let mut machine = Machine::new();
    let mut answers = [0u64; 17];
    machine.run(&CALLS, &mut answers);
    let mut others = [0u64; 17];
    let counted = run_plain(&machine.bad, &CALLS, &mut others);
    print_calls(&rt, &CALLS, &answers, &others)?;
    print_counts(&rt, machine.state.counts)?;
    println!(rt; "plain machine: calls counted {counted:02}")?;
    for numbers in &SINGLE {
        machine.call(&rt, numbers)?;
    }
    for a in LOOKS {
        machine.look(&rt, a)?;
    }
    // the word at 4008 now aborts: a load of the word before it is served, a load of it is not
    machine.bad[0x1002] = 1;
    for numbers in &BY_BAD_WORD {
        machine.call(&rt, numbers)?;
    }
    Ok(())
}
