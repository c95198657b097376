// Replays the calls for C, and writes a line for each: all numbers of the answer, which were ones before, what was written, and a sum
// over the whole output buffer.
//
// Standard input is frames: a letter, two numbers of four bytes, the low byte first, and bytes for t and r.
//   t 0 n ..   the text is these n bytes           r k n ..   k copies of these n bytes more
//   c n v      check, with n numbers to work in, each v
//   p n k      report, with n numbers to work in and k numbers of output, all 4,294,967,295
//   q n k      the same, all 0
//   m i k      message of fault i, to k bytes of output, all 255
//   n i _      name of fault i
//   v _ _      version
#![tactic(auto)]

use serduzhap_c::{
    CHECK_ANSWER, MESSAGE_ANSWER, NAME_ANSWER, REPORT_ANSWER, VERSION_ANSWER, WRITTEN,
};
use std::{fmt, io};
use test_frames::Frame;

// What every number of an answer is before a call.
const ONES: u32 = u32::MAX;

// What the calls are lent: the work buffer, and output of numbers and of bytes.
#[derive(Drop)]
struct Buffers<'a> {
    work: &'a mut [u32],
    out: &'a mut [u32],
    bytes: &'a mut [u8],
}

// All numbers of an answer, a tab after each.
#[derive(Drop)]
struct Answer<'a>(&'a [u32]);

impl<'a> fmt::Display for Answer<'a> {
    fn fmt<W: fmt::Write>(&self, f: &mut fmt::Formatter<W>) -> fmt::Result {
        for n in self.0 {
            write!(f, "{n}\t")?;
        }
        Ok(())
    }
}

fn check(rt: &impl Print, text: &[u8], work: &mut [u32], value: u32) -> io::Result<()> {
    let mut answer = [ONES; CHECK_ANSWER];
    work.fill(value);
    serduzhap_c::serduzhap_check(text, work, &mut answer);
    let answer = Answer(&answer);
    println!(rt; "check\t{answer}")
}

fn report(
    rt: &impl Print,
    text: &[u8],
    work: &mut [u32],
    out: &mut [u32],
    value: u32,
) -> io::Result<()> {
    let mut answer = [ONES; REPORT_ANSWER];
    work.fill(value);
    out.fill(value);
    serduzhap_c::serduzhap_report(text, work, out, &mut answer);
    let answer = Answer(&answer);
    let sum = test_frames::sum_of(out);
    println!(rt; "report\t{answer}{sum}")
}

// Writes the message of fault i to the output, and its bytes, if it was written.
fn message(
    rt: &impl Print,
    text: &[u8],
    work: &mut [u32],
    i: usize,
    out: &mut [u8],
) -> io::Result<()> {
    let mut answer = [ONES; MESSAGE_ANSWER];
    work.fill(ONES);
    out.fill(255);
    serduzhap_c::serduzhap_message(text, work, i, out, &mut answer);
    let [number, len] = answer;
    let answer = Answer(&answer);
    print!(rt; "message\t{answer}")?;
    if number as usize == WRITTEN {
        rt.write_all(test_frames::part(out, len as usize).0)?;
    }
    let sum = test_frames::sum_of(out);
    println!(rt; "\t{sum}")
}

// The name as the part that C is told, and as the slice that Rattle is handed.
fn name(rt: &impl Print, text: &[u8], work: &mut [u32], i: usize) -> io::Result<()> {
    let mut answer = [ONES; NAME_ANSWER];
    work.fill(ONES);
    serduzhap_c::serduzhap_name(text, work, i, &mut answer);
    let answer = Answer(&answer);
    print!(rt; "name\t{answer}")?;
    rt.write_all(serduzhap::name(text, work, i))?;
    println!(rt; "")
}

fn version(rt: &impl Print) -> io::Result<()> {
    let mut answer = [ONES; VERSION_ANSWER];
    serduzhap_c::serduzhap_version(&mut answer);
    let answer = Answer(&answer);
    println!(rt; "version\t{answer}")
}

// Runs the call of a frame.
fn call(rt: &impl Print, frame: Frame, text: &[u8], buffers: &mut Buffers) -> io::Result<()> {
    let Frame { letter, a, b } = frame;
    let work = &mut *buffers.work;
    let out = &mut *buffers.out;
    let bytes = &mut *buffers.bytes;
    let i = a as usize;
    let n = i.min(work.len());
    let k = out.len().min(b as usize);
    let m = bytes.len().min(b as usize);
    match letter {
        b'c' => check(rt, text, &mut work[..n], b),
        b'p' => report(rt, text, &mut work[..n], &mut out[..k], ONES),
        b'q' => report(rt, text, &mut work[..n], &mut out[..k], 0),
        b'm' => message(rt, text, work, i, &mut bytes[..m]),
        b'v' => version(rt),
        _ => name(rt, text, work, i),
    }
}

fn main(rt: HostRuntime) -> io::Result<()> {
    let mut buffers = Buffers {
        work: &mut [0; 16400],
        out: &mut [0; 16400],
        bytes: &mut [0; 512],
    };
    test_frames::replay(&mut rt.reader(), |frame, text| {
        call(&rt, frame, text, &mut buffers)
    })
}
