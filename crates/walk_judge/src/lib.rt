// Judges a read: the kind of its fault goes to its row's slot.
#![tactic(auto)]

ghost use Rattle.std.specs.Prelude.{◌≡◌, ◌<◌};
ghost use Rattle.spec_faults.specs.Faults.{lacks_self};
ghost use Rattle.spec_faults.specs.Kinds.{kind_number};
ghost use Rattle.read_row.specs.RowModel.{params_of};
ghost use Rattle.work_marks.specs.Signs.{own_by_number};
ghost use Rattle.walk_judge.specs.JudgeModel.{unbound_kind, undefined_kind, faulted, flag_in, read_of, is_called};
ghost use Rattle.walk_scopes.specs.ScopesModel.{home_number, scope_of};

use spec_faults::FaultKind;
use walk_scopes::{Home, Scope};
use work_marks::Own;

// The first parameter of a method.
const SELF: &[u8] = b"self";

// What an expression is read for.
#[derive(Clone, Copy, PartialEq, Eq)]
pub enum Use {
    Value,
    Callee,
}

// The kind of a fault of an own name that is not assigned.
#[tactic(auto, unfolding(crate::specs::JudgeModel::unbound_kind))]
fn unbound_kind(scope: &Scope, used: Use) -> FaultKind
    ensures { kind_number result ≡ unbound_kind (scope_of scope.now).outer (is_called used) }
{
    match (scope.lambdas, used) {
        (Some(_), _) => FaultKind::UnboundCapture,
        (None, Use::Callee) => FaultKind::UnboundFunction,
        (None, Use::Value) => FaultKind::UnboundVariable,
    }
}

// The kind of a fault of a name that is not in view.
#[tactic(auto, unfolding(crate::specs::JudgeModel::undefined_kind))]
fn undefined_kind(scope: &Scope, used: Use) -> FaultKind
    ensures { let s = scope_of scope.now in kind_number result ≡ undefined_kind s.home s.outer (is_called used) }
{
    match (scope.top.home, scope.lambdas, used) {
        (Home::Module, Some(_), _) => FaultKind::UndefinedCapture,
        (_, _, Use::Callee) => FaultKind::UndefinedFunction,
        (_, _, Use::Value) => FaultKind::UndefinedVariable,
    }
}

// Row i has a fault of this kind. A name that a lambda is blamed for counts as its parameter from there on: it is
// blamed once.
#[tactic(auto, unfolding(crate::specs::JudgeModel::faulted, work_marks::specs::MarksModel::raised_lambda))]
fn fault(work: &mut [u32], scope: &Scope, name: usize, i: usize, kind: FaultKind)
    ensures { work.new ≡ faulted (scope_of scope.now).outer name i (kind_number kind) work.old }
{
    work_marks::put_slot(work, i, kind);
    match (kind, scope.lambdas) {
        (FaultKind::UndefinedCapture | FaultKind::UnboundCapture, Some(l)) => {
            work_marks::raise_lambda(work, name, l.outer)
        }
        _ => {}
    }
}

// How the name of row i stands to the def that is its home; to another home it is no own name.
#[tactic(auto, unfolding(crate::specs::JudgeModel::flag_in))]
fn own_in(work: &[u32], home: Home, i: usize) -> Own
    ensures { result ≡ own_by_number (flag_in (home_number home) work.now i) }
{
    match home {
        Home::Def => work_marks::flag(work, i),
        Home::Module | Home::Method => Own::NotOwn,
    }
}

// Judges the read at row i, of a name.
#[tactic(auto, unfolding(crate::specs::JudgeModel::read_of))]
pub fn judge_read(work: &mut [u32], scope: &Scope, used: Use, name: usize, i: usize)
    ensures { work.new ≡ read_of (scope_of scope.now) (is_called used) name i work.old }
{
    if i < work_marks::lambda_end(work, name) {
        return;
    }
    match own_in(work, scope.top.home, i) {
        Own::Assigned => {}
        Own::Unassigned => fault(work, scope, name, i, unbound_kind(scope, used)),
        Own::NotOwn => {
            if !scope.top.is_defined(work, name, i) {
                fault(work, scope, name, i, undefined_kind(scope, used));
            }
        }
    }
}

// Whether the method at row i has no parameter, or another first one than `self`.
pub fn lacks_self(text: &[u8], work: &[u32], i: usize) -> bool
    ensures { result ≡ lacks_self (params_of text.now work.now i) }
{
    read_row::params(text, work, i)
        .next()
        .is_none_or(|name| name != SELF)
}
