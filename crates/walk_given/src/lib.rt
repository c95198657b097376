// What the walk begins with: all marks, slots and stamps are forgotten, and the given names are bound in the module.
#![tactic(auto)]

ghost use Rattle.std.specs.Prelude.{◌≡◌};
ghost use Rattle.walk_builtins.specs.Table.{names};
ghost use Rattle.walk_scopes.specs.ScopesModel.{top_of};
ghost use Rattle.walk_given.specs.GivenModel.{given, globals_from, begun};

use walk_scopes::ScopeStack;

// Binds the built-in names.
#[tactic(auto, unfolding(crate::specs::GivenModel::given), using(crate::proofs::Loops::given_row, crate::proofs::Loops::given_none))]
fn define_builtins(text: &[u8], work: &mut [u32], s: ScopeStack)
    ensures { work.new ≡ given text.now (top_of s) names work.old }
{
    for name in walk_builtins::names() {
        if let Some(row) = read_names::row_of(text, work, name) {
            s.define(work, row);
        }
    }
}

// Binds the names of the `global` lines.
#[tactic(auto, unfolding(crate::specs::GivenModel::globals_from), using(crate::proofs::Loops::globals_more))]
fn define_globals(work: &mut [u32], s: ScopeStack, globals: usize)
    ensures { work.new ≡ globals_from globals 0 (top_of s) work.old }
{
    for i in 0..globals {
        s.define(work, work_rows::number(work, i));
    }
}

// Before the first statement of so many rows, of which so many are `global` lines.
#[tactic(auto, unfolding(crate::specs::GivenModel::begun))]
pub fn bind_given(text: &[u8], work: &mut [u32], s: ScopeStack, globals: usize, rows: usize)
    ensures { work.new ≡ begun text.now (top_of s) globals rows work.old }
{
    work_marks::forget_marks(work, rows);
    work_marks::forget_stamps(work, rows);
    define_builtins(text, work, s);
    define_globals(work, s, globals)
}
