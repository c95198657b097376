// What the replay programs share: the frames of standard input, the line of a refusal, and sums.
#![tactic(auto)]

ghost use Rattle.std.specs.Prelude.{◌≡◌, ℕ, [], ◌+◌, ◌*◌, ◌%◌, ◌<◌, ◌≤◌, MatchOption, length, take, drop, get_or};
ghost use Rattle.std.specs.List.{fold};
ghost use Rattle.std.specs.Int.{from_le_bytes, w32};

use spec_text::Refused;
use std::io::Read;
use std::{fmt, io};
use write_bytes::Output;

// The most bytes of a text that frames make.
const LONGEST: usize = 70000;

// A frame: a letter and two numbers.
#[derive(Clone, Copy, PartialEq, Eq)]
pub struct Frame {
    pub letter: u8,
    pub a: u32,
    pub b: u32,
}

// The first n bytes, or as many as there are, and the bytes after them.
pub fn part(bytes: &[u8], n: usize) -> (&[u8], &[u8])
    ensures first { result.0.now ≡ take n bytes.now }
    ensures after { result.1.now ≡ drop n bytes.now }
    ensures after_len { length result.1.now ≤ length bytes.now }
{
    bytes.split_at(bytes.len().min(n))
}

// The number in the first four bytes, the low byte first, and the bytes after it. A byte that is missing is 0.
// Kept: no Option, since input that is cut off is no case of its own: its numbers are cut off as its texts are.
pub fn number(bytes: &[u8]) -> (u32, &[u8])
    ensures value { 4 ≤ length bytes.now → result.0 ≡ from_le_bytes w32 (take 4 bytes.now) }
    ensures after { result.1.now ≡ drop 4 bytes.now }
{
    let (here, rest) = part(bytes, 4);
    let mut four = [0u8; 4];
    four[..here.len()].copy_from_slice(here);
    (u32::from_le_bytes(four), rest)
}

// The first frame, and the bytes after it.
fn first_frame(bytes: &[u8]) -> Option<(Frame, &[u8])>
    ensures { MatchOption result (bytes.now ≡ []) (λ r. (r.0.letter ≡ get_or bytes.now 0 0) × (r.1.now ≡ drop 9 bytes.now) × (length r.1.now < length bytes.now)) }
{
    let (letter, rest) = bytes.split_first()?;
    let (a, rest) = number(rest);
    let (b, rest) = number(rest);
    let letter = *letter;
    Some((Frame { letter, a, b }, rest))
}

// The line of a text that is refused.
#[derive(Clone, Copy, PartialEq, Eq)]
pub struct RefusedLine(pub Refused);

impl fmt::Display for RefusedLine {
    fn fmt<W: fmt::Write>(&self, f: &mut fmt::Formatter<W>) -> fmt::Result {
        let Refused { why, line } = self.0;
        let number = why.number();
        write!(f, "refused\t{number}\t{line}")
    }
}

// Reads frames to their end and runs the calls, each on the text that the frames before it made: t, these bytes; r,
// copies of these bytes more. Any other letter is a call's.
pub fn replay<R: Read, F: FnMut(Frame, &[u8]) -> io::Result<()>>(
    from: &mut R,
    mut call: F,
) -> io::Result<()>
    requires { F.IsAlwaysCallable call }
{
    let mut all = [0u8; 262144];
    let n = program_input::read_full(from, &mut all)?;
    let mut buffer = [0u8; LONGEST];
    let mut text = Output::new(&mut buffer);
    let mut rest = &all[..n];
    while let Some((frame, after)) = first_frame(rest) {
        rest = after;
        match frame.letter {
            b't' => {
                let (bytes, next) = part(after, frame.b as usize);
                text.clear();
                text.push(bytes);
                rest = next;
            }
            b'r' => {
                let (bytes, next) = part(after, frame.b as usize);
                // Copies past those that fill the text add nothing.
                for _ in 0..frame.a.min(LONGEST as u32) {
                    text.push(bytes);
                }
                rest = next;
            }
            _ => call(frame, text.written())?,
        }
    }
    Ok(())
}

// One number more in a sum of 32 bits.
pub fn summed(sum: u32, n: u32) -> u32
    ensures { result ≡ (sum * 31 + n) % 4294967296 }
{
    sum.wrapping_mul(31).wrapping_add(n)
}

// A sum over numbers or bytes.
pub fn sum_of<T: Copy + Into<u32>>(items: &[T]) -> u32
    ensures { (value : T → ℕ) → ((x : T) (n : ℕ) → T.converts x n → n ≡ value x) → result ≡ fold (λ sum x. (sum * 31 + value x) % 4294967296) 0 items.now }
{
    items.iter().fold(0, |sum, x| summed(sum, (*x).into()))
}
