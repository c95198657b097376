// Reads a tree text into rows, or refuses it. An agenda in the work buffer says which lines are due, so nothing
// recurses: each turn takes one line, writes its row, and puts the lines due below it on the agenda.
#![tactic(auto)]

ghost use Rattle.std.specs.Prelude.{◌≡◌, ◌<◌, ◌≤◌, length};
ghost use Rattle.spec_text.specs.SortsModel.{sort_number};
ghost use Rattle.spec_text.specs.Reading.{reading, ended};
ghost use Rattle.read_agenda.specs.AgendaModel.{after};
ghost use Rattle.read_tree.specs.Laid.{Answers};
ghost use Rattle.read_tree.specs.MachineModel.{First, due_at, row_written, row_closed, rest_at};

mod reader;

use read_agenda::{Agenda, Due};
use read_line::Line;
use reader::Reader;
use spec_text::{Refusal, Refused, Sort};
use work_rows::LINE_KINDS;

// The most bytes of a text, the most lines after the first, the deepest line, the shortest work buffer, the most
// parameters.
const LONGEST_TEXT: usize = 65536;

const MOST_LINES: usize = 4096;

const DEEPEST: usize = 64;

const SHORTEST_WORK: usize = 16384;

const MOST_PARAMS: usize = 16;

// A tree that was read: how many `global` lines it has, and how many lines after the first.
#[derive(Clone, Copy, PartialEq, Eq)]
pub struct Tree {
    pub globals: usize,
    pub lines: usize,
}

// The line that starts at an offset, where line n is due and is one of a sort, with so many levels left.
#[tactic(auto, unfolding(crate::specs::MachineModel::due_at), using(crate::proofs::SortNumbers::sort_tests))]
fn line_due(text: &[u8], at: usize, sort: Sort, n: usize, levels: usize) -> Result<Line, Refused>
    ensures { result ≡ due_at text.now at (sort_number sort) n levels }
{
    let refused = |why: Refusal| Refused { why, line: n };
    if text.len() <= at {
        return Err(refused(Refusal::LineMissing));
    }
    let line = read_line::line_at(text, at).ok_or(refused(Refusal::Malformed))?;
    if line.sort != sort {
        return Err(refused(Refusal::NotDue));
    }
    if MOST_LINES + 1 < n || MOST_PARAMS < line.params || levels == 0 {
        return Err(refused(Refusal::OverLimit));
    }
    Ok(line)
}

// Writes row i: its kind, and its name or where its line starts.
#[tactic(auto, unfolding(crate::specs::MachineModel::row_written))]
fn write_row(text: &[u8], work: &mut [u32], i: usize, at: usize, line: Line)
    ensures { work.new ≡ row_written text.now i at line work.old }
{
    work_rows::put(work, i, line.kind);
    if line.name.len == 0 {
        read_names::place(work, i, at)
    } else {
        read_names::add(text, work, i, line.name, line.hash)
    }
}

// What is below row i has been read: its row gets the number of rows after it.
#[tactic(auto, unfolding(crate::specs::MachineModel::row_closed))]
fn close(work: &mut [u32], i: usize, rows: usize)
    requires { rows ≤ 4096 }
    ensures { work.new ≡ row_closed i rows work.old }
{
    let kind = work_rows::kind(work, i);
    let below = rows.saturating_sub(i).saturating_sub(1);
    work_rows::put(work, i, kind + LINE_KINDS * below)
}

// Reads the lines after the first.
fn rest(text: &[u8], work: &mut [u32], first: Line) -> Result<Tree, Refused>
    requires in_limits { (length text.now ≤ 65536) × (16384 ≤ length work.old) }
    requires is_first { First text.now first }
    ensures { Answers text.now (ended (after first.count0 first.count1 (rest_at text.now first.next 2))) work.new result }
{
    read_names::clear(work);
    let mut agenda = Agenda { work, top: 0 };
    agenda.push(Due {
        sort: Sort::Stmt,
        levels: DEEPEST,
        count: first.count1 as usize,
    });
    agenda.push(Due {
        sort: Sort::Global,
        levels: DEEPEST,
        count: first.count0 as usize,
    });
    let mut reader = Reader {
        text,
        agenda: &mut agenda,
        at: first.next,
        rows: 0,
    };
    reader.run()?;
    reader.answer(first.count0 as usize)
}

// Reads a tree text: any bytes, any work buffer, whatever it holds.
pub fn read_tree(text: &[u8], work: &mut [u32]) -> Result<Tree, Refused>
    ensures { Answers text.now (reading text.now (length work.old)) work.new result }
{
    if LONGEST_TEXT < text.len() {
        return Err(Refused {
            why: Refusal::TextTooLong,
            line: 0,
        });
    }
    if work.len() < SHORTEST_WORK {
        return Err(Refused {
            why: Refusal::WorkTooShort,
            line: 0,
        });
    }
    let first = line_due(text, 0, Sort::Tree, 1, 1)?;
    rest(text, work, first)
}
