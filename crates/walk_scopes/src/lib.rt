// The stack of scopes, lent: push, pop, define and is_defined, as in scope.rs. A scope is the block of a def or a
// method, or the module, and is known by its row; a name that is bound in it has a mark up to the row after it: so a
// scope that has ended binds nothing, and leaving it undoes no mark. The struct is the scope on top. The row of an open
// block links to the row of the scope below it, in the work buffer, and what else a scope is follows from its row.
#![tactic(auto)]

ghost use Rattle.std.specs.Prelude.{◌≡◌, ◌<◌};
ghost use Rattle.work_marks.specs.MarksModel.{put_link, raised_block};
ghost use Rattle.walk_scopes.specs.ScopesModel.{at_module, scope_at, below, is_defined};

use spec_text::line_kind;
use work_rows::ROWS_MOST;

mod place;

pub use place::{Lambdas, Scope};

// What a scope is the block of.
#[derive(Clone, Copy, PartialEq, Eq)]
pub enum Home {
    Module,
    Def,
    Method,
}

// The scope on top: its home, its row and the row after it. The module goes by the row ROWS_MOST and its number of
// rows, which is after every row that there can be.
// Kept: a number for the module's row and no variant with its rows: a block links to the scope around by a number in the
// buffer, so the module needs one as well.
#[derive(Clone, Copy, PartialEq, Eq)]
pub struct ScopeStack {
    pub home: Home,
    pub row: usize,
    pub end: usize,
}

impl ScopeStack {
    // The module, with so many rows.
    // Kept: the `requires` here and where a row is taken, since no usize is the row after the last that a usize holds.
    pub fn new(rows: usize) -> ScopeStack
        requires { rows < 4294967296 }
        ensures { result ≡ at_module rows }
    {
        ScopeStack {
            home: Home::Module,
            row: ROWS_MOST + rows,
            end: rows,
        }
    }

    // Puts the block of the def or the method at a row on top.
    pub fn push(&mut self, work: &mut [u32], row: usize)
        requires { row < 4294967296 }
        ensures top { self.new ≡ scope_at work.old row }
        ensures linked { work.new ≡ put_link work.old row self.old.row }
    {
        let below = self.row;
        *self = ScopeStack::at(work, row);
        work_marks::put_link(work, row, below);
    }

    // Takes the block on top off. The module stays.
    #[tactic(auto, unfolding(crate::specs::ScopesModel::below))]
    pub fn pop(&mut self, work: &[u32])
        ensures { self.new ≡ below work.now self.old }
    {
        if self.row < ROWS_MOST {
            *self = ScopeStack::at(work, work_marks::link(work, self.row));
        }
    }

    // Binds a name in the scope on top.
    pub fn define(&self, work: &mut [u32], name: usize)
        ensures { work.new ≡ raised_block work.old name self.now.end }
    {
        work_marks::raise_block(work, name, self.end)
    }

    // Whether a def, a method or the module around row i binds the name before it: up to a row after row i.
    // The marks say it, whichever scope is on top.
    pub fn is_defined(&self, work: &[u32], name: usize, i: usize) -> bool
        ensures { result ≡ is_defined work.now name i }
    {
        i < work_marks::block_end(work, name)
    }

    // The scope of the def or the method at a row, or the module.
    #[tactic(auto, unfolding(crate::specs::ScopesModel::scope_at))]
    fn at(work: &[u32], row: usize) -> ScopeStack
        requires { row < 4294967296 }
        ensures { result ≡ scope_at work.now row }
    {
        if ROWS_MOST <= row {
            return ScopeStack::new(row - ROWS_MOST);
        }
        let home = if work_rows::kind(work, row) == line_kind::DEF {
            Home::Def
        } else {
            Home::Method
        };
        ScopeStack {
            home,
            row,
            end: work_rows::after_row(work, row),
        }
    }
}
