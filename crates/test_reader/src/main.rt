// Replays texts through the reader and writes one line for each: its refusal, or how many rows it has and a sum over them.
//
// Standard input is frames: a letter, two numbers of four bytes, the low byte first, and bytes for t and r.
//   t 0 n ..   the text is these n bytes           r k n ..   k copies of these n bytes more
//   w n _      the text, with n numbers to work in; all rows are written
//   j a b      the first a bytes of the text, and its bytes from b on
//   b i v      the text with the byte v at i
// The work buffer is filled with 4,294,967,295 before each.
#![tactic(auto)]

ghost use Rattle.std.specs.Prelude.{◌<◌};

use read_tree::Tree;
use std::{fmt, io};
use test_frames::{Frame, RefusedLine};
use write_bytes::Output;

// What a row says: its kind, the lines below it, its offset, and the number of its name.
#[derive(Drop)]
struct Row {
    kind: u32,
    lines_below: u32,
    offset: u32,
    number: u32,
}

impl fmt::Display for Row {
    fn fmt<W: fmt::Write>(&self, f: &mut fmt::Formatter<W>) -> fmt::Result {
        let Row {
            kind,
            lines_below,
            offset,
            number,
        } = self;
        write!(f, "{kind}\t{lines_below}\t{offset}\t{number}")
    }
}

impl Row {
    fn at(work: &[u32], i: usize) -> Row
        requires { i < 4096 }
    {
        Row {
            kind: work_rows::kind(work, i) as u32,
            lines_below: work_rows::lines_below(work, i) as u32,
            offset: work_rows::offset(work, i) as u32,
            number: work_rows::number(work, i) as u32,
        }
    }

    fn numbers(&self) -> [u32; 4] {
        [self.kind, self.lines_below, self.offset, self.number]
    }
}

// A sum over the rows.
fn sum_of(work: &[u32], lines: usize) -> u32 {
    let mut sum = 0;
    for i in 0..lines.min(4096) {
        for n in Row::at(work, i).numbers() {
            sum = test_frames::summed(sum, n);
        }
    }
    sum
}

// Reads a text, writes what came out, and answers how many rows there are.
fn read(rt: &impl Print, text: &[u8], work: &mut [u32]) -> io::Result<usize> {
    work.fill(u32::MAX);
    match read_tree::read_tree(text, work) {
        Ok(Tree { globals, lines }) => {
            let sum = sum_of(work, lines);
            println!(rt; "tree\t{globals}\t{lines}\t{sum}")?;
            Ok(lines)
        }
        Err(refused) => {
            let line = RefusedLine(refused);
            println!(rt; "{line}")?;
            Ok(0)
        }
    }
}

// The text, with all rows.
fn whole(rt: &impl Print, text: &[u8], work: &mut [u32]) -> io::Result<()> {
    let lines = read(rt, text, work)?;
    for i in 0..lines.min(4096) {
        let row = Row::at(work, i);
        println!(rt; "{row}")?;
    }
    Ok(())
}

// The first a bytes of the text, and its bytes from b on.
fn joined(rt: &impl Print, text: &[u8], a: usize, b: usize, work: &mut [u32]) -> io::Result<()> {
    let mut bytes = [0u8; 70000];
    let mut other = Output::new(&mut bytes);
    other.push(test_frames::part(text, a).0);
    other.push(test_frames::part(text, b).1);
    read(rt, other.written(), work)?;
    Ok(())
}

// The text with another byte at i.
fn changed(rt: &impl Print, text: &[u8], i: usize, v: u32, work: &mut [u32]) -> io::Result<()> {
    let mut bytes = [0u8; 70000];
    let mut other = Output::new(&mut bytes);
    other.push(text);
    other.set(i, (v % 256) as u8);
    read(rt, other.written(), work)?;
    Ok(())
}

// Runs a call.
fn call(rt: &impl Print, frame: Frame, text: &[u8], work: &mut [u32]) -> io::Result<()> {
    let Frame { letter, a, b } = frame;
    let n = a as usize;
    match letter {
        b'w' if n <= work.len() => whole(rt, text, &mut work[..n]),
        b'w' => Ok(()),
        b'j' => joined(rt, text, n, b as usize, work),
        _ => changed(rt, text, n, b, work),
    }
}

fn main(rt: HostRuntime) -> io::Result<()> {
    let mut work = [0u32; 16384];
    test_frames::replay(
        &mut rt.reader(),
        |frame, text| call(&rt, frame, text, &mut work),
    )
}
