// A def's own names, and where they are assigned: where a def is opened, each `var` in its block gets a flag that says
// whether its name is an own name of the def, and whether it is assigned at that row. Own names are gathered first,
// each with a stamp, the first row from which it is assigned; then the flags are set, and the stamps are forgotten. A
// stamp that does not come after the def's row is an old one.
// Kept: `i ≤ 16384`, which no row passes, at each step, and no type for a row: no usize is the row after the last, and a
// struct with this bound would be made anew for each row that a loop comes to.
#![tactic(auto)]

ghost use Rattle.std.specs.Prelude.{◌≡◌, ◌<◌, ◌≤◌, ℕ, List};
ghost use Rattle.work_rows.specs.Layout.{number_at};
ghost use Rattle.work_rows.specs.LoopsModel.{rows_to};
ghost use Rattle.work_marks.specs.MarksModel.{stamp_at};
ghost use Rattle.work_marks.specs.Signs.{own_number};
ghost use Rattle.walk_own_names.specs.OwnNamesModel.{noted, forgot, row_binds, assigned_from, next_binding, flag_for};
ghost use Rattle.walk_own_names.specs.OwnNamesModel.{row_flagged, next_in_block, flagged};

use spec_text::line_kind;
use work_marks::{NEVER, Own};
use work_rows::ROWS_MOST;

// The def at row b has the name of its own, assigned from a row on.
// Kept: `name < ROWS_MOST`, and no type for a name's row: a name's number comes out of the buffer, and whatever stands
// there, the test keeps the stamp in its region.
#[tactic(auto, unfolding(crate::specs::OwnNamesModel::noted))]
pub fn note_name(work: &mut [u32], b: usize, name: usize, from: usize)
    ensures { work.new ≡ noted b name from work.old }
{
    if name < ROWS_MOST {
        let old = work_marks::stamp(work, name);
        if old <= b || from < old {
            work_marks::put_stamp(work, name, from);
        }
    }
}

// The row from which the name that row i binds is assigned; a `var` is a target. None if it binds no name.
fn assigned_from(work: &[u32], i: usize) -> Option<usize>
    requires { i ≤ 16384 }
    ensures { result ≡ assigned_from work.now i }
{
    match work_rows::kind(work, i) {
        line_kind::DEF | line_kind::CLASS => Some(NEVER),
        line_kind::FOR => Some(work_rows::after_row(work, i + 1)),
        line_kind::VAR => Some(i + 1),
        _ => None,
    }
}

// The next row that may bind a name in the block: past nested defs and classes, and past expressions that are no
// targets.
#[tactic(auto, unfolding(crate::specs::OwnNamesModel::next_binding))]
fn next_binding(work: &[u32], i: usize) -> usize
    requires { i ≤ 16384 }
    ensures next { result ≡ next_binding work.now i }
    ensures after { i < result }
{
    match work_rows::kind(work, i) {
        line_kind::ASSIGN..=line_kind::FOR => work_rows::after_row(work, i + 1),
        line_kind::TUPLE => i + 1,
        _ => work_rows::after_row(work, i),
    }
}

// Notes what row i binds.
#[tactic(auto, unfolding(crate::specs::OwnNamesModel::row_binds))]
fn note_row(work: &mut [u32], b: usize, i: usize)
    requires { i ≤ 16384 }
    ensures { work.new ≡ row_binds (noted b) i work.old }
{
    if let Some(from) = assigned_from(work, i) {
        note_name(work, b, work_rows::number(work, i), from);
    }
}

// Forgets what was noted of row i.
// Kept: 0 for no stamp, as a stamp is only compared with rows, and none is before row 0.
#[tactic(auto, unfolding(crate::specs::OwnNamesModel::row_binds))]
fn forget_row(work: &mut [u32], i: usize)
    requires { i ≤ 16384 }
    ensures { work.new ≡ row_binds forgot i work.old }
{
    if assigned_from(work, i).is_some() {
        work_marks::put_stamp(work, work_rows::number(work, i), 0);
    }
}

// How the name of row i stands to the def at row b.
fn flag_of(work: &[u32], b: usize, i: usize) -> Own
    requires { i ≤ 16384 }
    ensures { own_number result ≡ flag_for b i (stamp_at work.now (number_at work.now i)) }
{
    let from = work_marks::stamp(work, work_rows::number(work, i));
    if from <= b {
        Own::NotOwn
    } else if i < from {
        Own::Unassigned
    } else {
        Own::Assigned
    }
}

// Flags row i, if it is a `var`.
#[tactic(auto, unfolding(crate::specs::OwnNamesModel::row_flagged))]
fn flag_row(work: &mut [u32], b: usize, i: usize)
    requires { i ≤ 16384 }
    ensures { work.new ≡ row_flagged b i work.old }
{
    if work_rows::kind(work, i) == line_kind::VAR {
        work_marks::put_flag(work, i, flag_of(work, b, i));
    }
}

// The next row of the block: past nested defs and classes.
#[tactic(auto, unfolding(crate::specs::OwnNamesModel::next_in_block))]
fn next_in_block(work: &[u32], i: usize) -> usize
    requires { i ≤ 16384 }
    ensures next { result ≡ next_in_block work.now i }
    ensures after { i < result }
{
    match work_rows::kind(work, i) {
        line_kind::DEF | line_kind::CLASS => work_rows::after_row(work, i),
        _ => i + 1,
    }
}

// One row after the other, from `first` up to `stop`: what is done at a row, and which row is next.
// Kept: a while, since which row is next is asked of the buffer that the step is lent.
fn each_row<N: Fn(&[u32], usize) -> usize, F: Fn(&mut [u32], usize)>(
    work: &mut [u32],
    first: usize,
    stop: usize,
    next: N,
    row: F,
)
    requires next_callable { (v : _) (i : ℕ) → i < stop → N.pre next v i }
    requires next_after { (v : _) (i j : ℕ) → N.post next v i j → i < j }
    requires row_callable { (v : _) (i : ℕ) → i < stop → F.pre row v i }
    ensures { (n : List ℕ → ℕ → ℕ) (f : ℕ → List ℕ → List ℕ)
        → ((v : List ℕ) (i : ℕ) → i < n v i)
        → ((v : _) (i j : ℕ) → N.post next v i j → j ≡ n v.now i)
        → ((v w : _) (i : ℕ) → F.post row v i tt w → w.now ≡ f i v.now)
        → work.new ≡ rows_to n f first stop work.old }
{
    let mut at = first;
    while at < stop {
        let after = next(work, at);
        row(work, at);
        at = after;
    }
}

// Flags the block of the def at row b, whose parameters are noted and whose rows go from `first` up to the row stop.
// Kept: two rows and no Range, which is not Copy: three loops go over the same rows.
pub fn flag_block(work: &mut [u32], b: usize, first: usize, stop: usize)
    requires { stop ≤ 16384 }
    ensures { work.new ≡ flagged b first stop work.old }
{
    each_row(work, first, stop, next_binding, |w, i| note_row(w, b, i));
    each_row(work, first, stop, next_in_block, |w, i| flag_row(w, b, i));
    each_row(work, first, stop, next_binding, |w, i| forget_row(w, i))
}
