// The agenda: which lines are due, the next one on top. Its entries, and their numbers in the work buffer.
#![tactic(auto)]

ghost use Rattle.std.specs.Prelude.{◌≡◌, ◌%◌, ◌<◌, MatchOption};
ghost use Rattle.spec_text.specs.SortsModel.{sort_number};
ghost use Rattle.read_agenda.specs.Entries.{due_word, entry_word, IsEntry};

mod agenda;
mod due;

pub use agenda::{AGENDA_BASE, Agenda};
pub use due::Due;
use spec_text::Sort;

// An entry's number is a sort, SORTS times the levels left, and LEVELS times how many lines are due;
// or CLOSE and LEVELS times a row.
pub const SORTS: usize = 8;

pub const DEPTHS: usize = 128;

pub const LEVELS: usize = 1024;

pub const CLOSE: usize = 7;

// An entry of the agenda: lines that are due, or a row to close, since all below it has been read by then.
#[derive(Clone, Copy, PartialEq, Eq)]
pub enum Entry {
    Due(Due),
    Close(usize),
}

// The sort of a number.
fn sort_of(number: usize) -> Option<Sort>
    requires { number < 8 }
    ensures { MatchOption result (number ≡ 7) (λ s. sort_number s ≡ number) }
{
    match number {
        0 => Some(Sort::Tree),
        1 => Some(Sort::Global),
        2 => Some(Sort::Elif),
        3 => Some(Sort::Method),
        4 => Some(Sort::Attr),
        5 => Some(Sort::Stmt),
        6 => Some(Sort::Expr),
        _ => None,
    }
}

impl Due {
    // All of it: a `Due` is in range.
    fn number(self) -> usize
        ensures { result ≡ due_word self }
    {
        self.sort.number() + SORTS * self.levels + LEVELS * self.count
    }
}

impl Entry {
    // 32 bits of it are written, so that the sum may wrap.
    fn number(self) -> usize
        ensures { result % 4294967296 ≡ entry_word self % 4294967296 }
    {
        match self {
            Entry::Due(due) => due.number(),
            Entry::Close(row) => CLOSE.wrapping_add(LEVELS.wrapping_mul(row)),
        }
    }

    fn of_number(number: usize) -> Entry
        requires { number < 4294967296 }
        ensures { IsEntry number result }
    {
        match sort_of(number % SORTS) {
            Some(sort) => Entry::Due(Due {
                sort,
                levels: number / SORTS % DEPTHS,
                count: number / LEVELS,
            }),
            None => Entry::Close(number / LEVELS),
        }
    }
}
