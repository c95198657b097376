// The way into a block: its parameters are bound, and in a def each `var` is flagged by how its name stands to the def.
// Kept: `i ≤ 4096` where the row after row i is made, since no usize is the row after the last that a usize holds.
#![tactic(auto)]

ghost use Rattle.std.specs.Prelude.{◌≡◌, ◌≤◌};
ghost use Rattle.read_row.specs.RowModel.{params_of};
ghost use Rattle.walk_scopes.specs.ScopesModel.{scope_of};
ghost use Rattle.walk_blocks.specs.BlocksModel.{entered_one, entered, opened};

use walk_scopes::Scope;

// Binds a parameter of row i.
#[tactic(auto, unfolding(crate::specs::BlocksModel::entered_one, walk_own_names::specs::OwnNamesModel::noted, walk_scopes::specs::ScopesModel::defined, work_marks::specs::MarksModel::raised_block, work_marks::specs::MarksModel::raised_lambda))]
fn enter_one(text: &[u8], work: &mut [u32], scope: &Scope, i: usize, name: &[u8])
    requires { i ≤ 4096 }
    ensures { work.new ≡ entered_one text.now (scope_of scope.now) i name.now work.old }
{
    if let Some(a) = read_names::row_of(text, work, name) {
        scope.define(work, a);
        if scope.owns() {
            walk_own_names::note_name(work, i, a, i + 1);
        }
    }
}

// Binds the parameters of row i.
#[tactic(auto, unfolding(crate::proofs::Params::names_entered), using(crate::proofs::Params::all_entered))]
fn enter(text: &[u8], work: &mut [u32], scope: &Scope, i: usize)
    requires { i ≤ 4096 }
    ensures { work.new ≡ entered text.now (scope_of scope.now) i (params_of text.now work.old i) work.old }
{
    for name in read_row::params(text, work, i) {
        enter_one(text, work, scope, i, name);
    }
}

// Into the block of row i, up to the row stop: binds its parameters; of a def, flags each `var` by how its name stands
// to the def.
#[tactic(auto, unfolding(crate::specs::BlocksModel::opened))]
pub fn enter_block(text: &[u8], work: &mut [u32], scope: &Scope, i: usize, stop: usize)
    requires { (i ≤ 4096) × (stop ≤ 16384) }
    ensures { work.new ≡ opened text.now (scope_of scope.now) i stop work.old }
{
    enter(text, work, scope, i);
    if scope.owns() {
        walk_own_names::flag_block(work, i, i + 1, stop);
    }
}
