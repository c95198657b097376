// The reader for C and Rust: a slice is a pointer and a count, the answer a struct of numbers.
#![tactic(auto)]

ghost use Rattle.std.specs.Prelude.{◌≡◌, length};
ghost use Rattle.spec_text.specs.Reading.{reading};
ghost use Rattle.read_tree.specs.Laid.{in_numbers, answer_of, Kept};
ghost use Rattle.bench_reader.specs.Numbers.{numbers_of};

use read_tree::Tree;
use spec_text::Refused;

// What the reader answers.
// Kept: numbers and no Result, since C is handed numbers.
#[repr(C)]
#[derive(Clone, Copy, PartialEq, Eq)]
pub struct ReadNumbers {
    pub refusal: usize,
    pub line: usize,
    pub globals: usize,
    pub lines: usize,
}

impl From<Result<Tree, Refused>> for ReadNumbers {
    ghost from_gives = { λ r n. n ≡ numbers_of (in_numbers r) };

    fn from(r: Result<Tree, Refused>) -> ReadNumbers {
        match r {
            Ok(tree) => ReadNumbers {
                refusal: 0,
                line: 0,
                globals: tree.globals,
                lines: tree.lines,
            },
            Err(refused) => ReadNumbers {
                refusal: refused.why.number(),
                line: refused.line,
                globals: 0,
                lines: 0,
            },
        }
    }
}

// Reads a tree text into the work buffer.
#[unsafe(no_mangle)]
pub extern "C" fn serduzhap_read(text: &[u8], work: &mut [u32]) -> ReadNumbers
    ensures numbers { result ≡ numbers_of (answer_of (reading text.now (length work.old))) }
    ensures kept { Kept text.now (reading text.now (length work.old)) work.new }
{
    ReadNumbers::from(read_tree::read_tree(text, work))
}
