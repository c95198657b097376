// The agenda: which lines are due, the next one on top, as a stack in the work buffer.
ghost use Rattle.std.specs.Prelude.{◌≡◌, ◌+◌, ◌-◌, ◌<◌, get_or};
ghost use Rattle.read_words.specs.ChildrenModel.{Few};
ghost use Rattle.read_agenda.specs.StackModel.{agenda_base, stack, pushed_below, is_leaf, pushed_due, lessened};
ghost use Rattle.read_agenda.specs.Entries.{due_word, OnTop, written, pushed_lines};
ghost use Rattle.read_agenda.specs.LentModel.{stack_of, Leaves};

use crate::{Due, Entry, LEVELS};
use read_words::Children;
use spec_text::Sort;

// Where the agenda stands.
pub const AGENDA_BASE: usize = 12288;

// Whether nothing is due below a line.
#[tactic(auto, unfolding(crate::specs::StackModel::is_leaf))]
fn is_leaf(children: Children) -> bool
    ensures { result ≡ is_leaf children }
{
    children == Children::default()
}

// The agenda: so many entries, in this buffer.
#[derive(Drop)]
pub struct Agenda<'a> {
    pub work: &'a mut [u32],
    pub top: usize,
}

impl<'a> Agenda<'a> {
    // The entry on top, if anything is due.
    pub fn on_top(&self) -> Option<Entry>
        ensures is_on_top { OnTop self.now.work.now self.now.top result }
        ensures is_number { 0 < self.now.top → get_or self.now.work.now (agenda_base + self.now.top - 1) 0 < 4294967296 }
    {
        let under = self.top.checked_sub(1)?;
        let number = work_rows::get(self.work, AGENDA_BASE.saturating_add(under));
        Some(Entry::of_number(number))
    }

    // Writes an entry over the ones below it. The top stays at the last number that a usize holds: no text has as many
    // entries due.
    fn write(&mut self, entry: Entry)
        ensures { Leaves self.old (written entry (stack_of self.old)) (self.old.top + 1) self.new }
    {
        work_rows::put(
            self.work,
            AGENDA_BASE.saturating_add(self.top),
            entry.number(),
        );
        self.top = self.top.saturating_add(1);
    }

    // Puts lines on the agenda, if any are due.
    #[tactic(auto, unfolding(crate::specs::StackModel::pushed))]
    pub fn push(&mut self, due: Due)
        ensures { Leaves self.old (pushed_lines due (stack_of self.old)) (self.old.top + 1) self.new }
    {
        if due.count == 0 {
            return;
        }
        self.write(Entry::Due(due));
    }

    // Puts what is due below a row on the agenda, the last first, over the end of the row.
    #[tactic(auto, unfolding(crate::specs::StackModel::pushed_below))]
    fn push_below(&mut self, row: usize, children: Children, levels: usize)
        requires { (levels < 128) × Few children }
        ensures { Leaves self.old (pushed_below row children levels (stack_of self.old)) (self.old.top + 7) self.new }
    {
        let lines = |sort: Sort, count: usize| -> Due
            requires { (levels < 128) × (count < 4294967296) }
        {
            Due {
                sort,
                levels,
                count,
            }
        };
        self.write(Entry::Close(row));
        self.push(lines(Sort::Attr, children.attrs));
        self.push(lines(Sort::Method, children.methods));
        self.push(lines(Sort::Stmt, children.others));
        self.push(lines(Sort::Elif, children.elifs));
        self.push(lines(Sort::Stmt, children.stmts));
        self.push(lines(Sort::Expr, children.exprs));
    }

    // Puts what is due below a row on the agenda, if anything is.
    #[tactic(auto, unfolding(crate::specs::StackModel::pushed_due))]
    pub fn push_due(&mut self, row: usize, children: Children, levels: usize)
        requires { (levels < 128) × Few children }
        ensures { Leaves self.old (pushed_due row children levels (stack_of self.old)) (self.old.top + 7) self.new }
    {
        if is_leaf(children) {
            return;
        }
        self.push_below(row, children, levels);
    }

    // The entry on top is taken off.
    pub fn pop(&mut self)
        ensures { Leaves self.old (stack self.old.work.now (self.old.top - 1)) (self.old.top - 1) self.new }
    {
        self.top = self.top.saturating_sub(1);
    }

    // One of the lines of the entry with this number, which is on top, is taken.
    #[tactic(auto, unfolding(crate::specs::StackModel::lessened))]
    pub fn one_less_of(&mut self, number: usize)
        ensures { Leaves self.old (lessened number (stack_of self.old)) self.old.top self.new }
    {
        if number / LEVELS <= 1 {
            self.pop();
            return;
        }
        work_rows::put(
            self.work,
            AGENDA_BASE.saturating_add(self.top) - 1,
            number - LEVELS,
        );
    }

    // One of the lines on top is taken.
    pub fn one_less(&mut self, due: Due)
        ensures { Leaves self.old (lessened (due_word due) (stack_of self.old)) self.old.top self.new }
    {
        self.one_less_of(due.number());
    }
}
