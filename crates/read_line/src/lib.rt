// One line of the tree text: its word, and then the fields that the word's row of the table asks for.
#![tactic(auto)]

ghost use Rattle.std.specs.Prelude.{◌≡◌};
ghost use Rattle.read_line.specs.LineModel.{line_at};
ghost use Rattle.read_line.specs.StepsModel.{number_if, name_if, params_if};

use read_bytes::NamePart;
use read_fields::{Cursor, Name, Number};
use spec_text::Sort;

// The largest start or end of a span, and the largest count.
const LARGEST_SPAN: u32 = 4294967295;

const LARGEST_COUNT: u32 = 4096;

// A line as numbers: the word's place in the table, the class of places where it is due, its span, its own name with
// its hash, its counts, how many parameters it has, and where the next line starts.
// Kept: 0 and no Option for what the word's row has not: who reads a line goes by its kind, and an empty name is none.
#[derive(Clone, Copy, PartialEq, Eq, Default)]
pub struct Line {
    pub kind: usize,
    pub sort: Sort,
    pub start: u32,
    pub end: u32,
    pub name: NamePart,
    pub hash: usize,
    pub count0: u32,
    pub count1: u32,
    pub count2: u32,
    pub params: usize,
    pub next: usize,
}

// How many parameters there are, and the cursor past them.
#[derive(Clone, Copy, PartialEq, Eq)]
pub struct Params {
    pub count: usize,
    pub next: Cursor,
}

// A number of the line's span or a count, where one is due.
// It is inlined, as the next two are, so that no result passes through memory.
// Kept: asked of each number: one `if` for the two of a span would hand on start, end and cursor from both its ways.
#[tactic(auto, unfolding(crate::specs::StepsModel::number_if))]
#[inline(always)]
fn number_if(due: bool, largest: u32, text: &[u8], c: Cursor) -> Option<Number>
    ensures { result ≡ number_if due largest text.now c }
{
    if due {
        c.number(text, largest)
    } else {
        Some(Number { value: 0, next: c })
    }
}

// The line's own name, where one is due.
// Kept: apart from number_if, since with a closure for the step each of the six calls would be longer.
#[tactic(auto, unfolding(crate::specs::StepsModel::name_if))]
#[inline(always)]
fn name_if(due: bool, text: &[u8], c: Cursor) -> Option<Name>
    ensures { result ≡ name_if due text.now c }
{
    if due {
        c.name(text)
    } else {
        Some(Name {
            part: NamePart::default(),
            hash: 0,
            next: c,
        })
    }
}

// All the fields that are left, as names, where parameters are due.
// Kept: a `while`, which stops at the end of the line or at what is no name: a fold over an iterator of the fields that
// are left would have the same two in its state, the count and the cursor.
#[tactic(auto, using(crate::proofs::Tail::turn, crate::proofs::Tail::none_here, crate::proofs::Tail::out))]
#[inline(always)]
fn params_if(due: bool, text: &[u8], c: Cursor) -> Option<Params>
    ensures { result ≡ params_if due text.now c }
{
    let mut next = c;
    let mut count = 0;
    while due && next.more {
        next = next.name(text)?.next;
        count += 1;
    }
    Some(Params { count, next })
}

// The line that starts at an offset.
#[tactic(auto, using(crate::proofs::BySteps::by_steps_lem))]
pub fn line_at(text: &[u8], at: usize) -> Option<Line>
    ensures { result ≡ line_at text.now at }
{
    let word = read_words::kind_of(text, Cursor::start(at))?;
    let shape = read_words::shape_of(word.kind);
    let start = number_if(shape.spanned, LARGEST_SPAN, text, word.next)?;
    let end = number_if(shape.spanned, LARGEST_SPAN, text, start.next)?;
    let name = name_if(shape.named, text, end.next)?;
    let count0 = number_if(0 < shape.counts, LARGEST_COUNT, text, name.next)?;
    let count1 = number_if(1 < shape.counts, LARGEST_COUNT, text, count0.next)?;
    let count2 = number_if(2 < shape.counts, LARGEST_COUNT, text, count1.next)?;
    let params = params_if(shape.params, text, count2.next)?;
    let line_end = params.next.line_end()?;
    Some(Line {
        kind: word.kind,
        sort: shape.sort,
        start: start.value,
        end: end.value,
        name: name.part,
        hash: name.hash,
        count0: count0.value,
        count1: count1.value,
        count2: count2.value,
        params: params.count,
        next: line_end.at,
    })
}
