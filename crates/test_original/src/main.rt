// Replays what the Rust original answered: the first error of each tree, in kind, span and words.
//
// Standard input is texts, each after its length in four bytes, the low byte first. For each a line is written: `accepted`; or kind, start,
// end and message of the first fault; or `refused`, number and line. oracle/src/vectors.rs wrote the texts and, from the original
// compiled unchanged, the lines that are expected, refusals from a plain parser: `bash oracle/run.sh PATH vectors crates/test_original 1`.
#![tactic(auto)]

use report_records::Record;
use std::io;
use test_frames::RefusedLine;

// Writes the words of the first fault.
fn print_message(
    rt: &impl Print,
    text: &[u8],
    work: &mut [u32],
    bytes: &mut [u8],
) -> io::Result<()> {
    match serduzhap::message(text, work, 0, bytes) {
        Ok(len) => rt.write_all(test_frames::part(bytes, len).0),
        Err(_) => print!(rt; "no message"),
    }
}

fn print_fault(
    rt: &impl Print,
    fault: Record,
    text: &[u8],
    work: &mut [u32],
    bytes: &mut [u8],
) -> io::Result<()> {
    let Record { start, end, .. } = fault;
    let kind = fault.kind.number();
    print!(rt; "{kind}\t{start}\t{end}\t")?;
    print_message(rt, text, work, bytes)?;
    println!(rt; "")
}

// Checks a text and writes its line.
fn check(rt: &impl Print, text: &[u8], work: &mut [u32], bytes: &mut [u8]) -> io::Result<()> {
    match serduzhap::check(text, work) {
        Ok(None) => println!(rt; "accepted"),
        Ok(Some(fault)) => print_fault(rt, fault, text, work, bytes),
        Err(refused) => {
            let line = RefusedLine(refused);
            println!(rt; "{line}")
        }
    }
}

fn run(rt: &impl Print, all: &[u8]) -> io::Result<()> {
    let mut work = [u32::MAX; 16384];
    let mut bytes = [0u8; 512];
    let mut rest = all;
    while !rest.is_empty() {
        let (len, after) = test_frames::number(rest);
        let len = len as usize;
        let text = after.get(..len).unwrap_or(&[]);
        check(rt, text, &mut work, &mut bytes)?;
        rest = test_frames::part(after, len).1;
    }
    Ok(())
}

fn main(rt: HostRuntime) -> io::Result<()> {
    let mut all = [0u8; 262144];
    let n = program_input::read_full(&mut rt.reader(), &mut all)?;
    run(&rt, &all[..n])
}
