// Checks the tree text on standard input and prints its faults: reads, and writes what the library printed.
#![tactic(auto)]

ghost use Rattle.std.specs.Prelude.{OnOk, IfSome};
ghost use Rattle.std.specs.Io.KnownBytes.{Appends};
ghost use Rattle.spec_answers.specs.Printed.{printed};

use print_answer::{REPORT, WORK};
use std::io;
use std::io::{Read, Write};

// One byte more than the longest text tells that a text is too long.
const TEXT: usize = 65537;

// Room for what is printed.
const OUT: usize = 524288;

// Reads a text to its end and prints what `printed` says of it, all of that, with these buffers.
fn answer<R: Read, W: Write>(
    from: &mut R,
    to: &mut W,
    text: &mut [u8; TEXT],
    work: &mut [u32; WORK],
    report: &mut [u32; REPORT],
    out: &mut [u8; OUT],
) -> io::Result<()>
    ensures { OnOk result (IfSome (R.remaining from.old) (λ bytes. Appends (W.contents to.old) (W.contents to.new) (printed bytes))) }
{
    let n = program_input::read_full(from, text)?;
    let len = print_answer::print(&text[..n], work, report, out);
    to.write_all(&out[..len])
}

// The same with buffers of its own.
// Kept: tried as one function, and the proof did not close: over arrays of this size the check did not end in 170 seconds.
fn run<R: Read, W: Write>(from: &mut R, to: &mut W) -> io::Result<()>
    ensures { OnOk result (IfSome (R.remaining from.old) (λ bytes. Appends (W.contents to.old) (W.contents to.new) (printed bytes))) }
{
    let mut text = [0u8; TEXT];
    let mut work = [0u32; WORK];
    let mut report = [0u32; REPORT];
    let mut out = [0u8; OUT];
    answer(from, to, &mut text, &mut work, &mut report, &mut out)
}

fn main(rt: HostRuntime) -> io::Result<()> {
    run(&mut rt.reader(), &mut io::writer(&rt))
}
