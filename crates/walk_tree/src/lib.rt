// The walk over the rows of a tree: statements, lists of statements, expressions and lists of expressions call each
// other, and the number of lines left falls at each call. Names are marked where they are bound, and the kind of a
// row's fault goes to its slot. Statements push scopes and pop them; expressions are lent where they stand, and leave
// the stack of scopes as it was.
// `left` is the number of rows at the start, and one less at each level. The lines around a line are other rows, one a
// level: so a line of a tree that was read is never met with none left. The test for 0 is there so that the walk ends
// on any numbers.
#![tactic(auto)]

ghost use Rattle.std.specs.Prelude.{◌≡◌, ◌<◌, ◌≤◌, false};
ghost use Rattle.walk_scopes.specs.ScopesModel.{scope_of, top_of};
ghost use Rattle.walk_judge.specs.JudgeModel.{is_called};
ghost use Rattle.walk_tree.specs.WalkModel.{over, next_target, method_at, head_at, begun_block, block_at, assign_at};
ghost use Rattle.walk_tree.specs.WalkModel.{walk_target, walk_targets, walk_expr, walk_exprs, walk_stmt, walk_stmts};
ghost use Rattle.walk_tree.specs.WalkModel.{walk_line, walk_body, walked};
ghost use Rattle.walk_tree.specs.StepsModel.{Walked};

use spec_faults::FaultKind;
use spec_text::line_kind;
use walk_judge::Use;
use walk_scopes::{Home, Scope, ScopeStack};
use work_rows::ROWS_MOST;

// A walk on its way: the text, the work buffer that it marks, and the stack of scopes.
// A method that writes takes the buffer as `work` first, also to read: after a read through `self.work` itself a proof
// no longer knows what the buffer holds.
// Kept: bounds in the `requires`. A row and the row after its part are both numbers, and the row after can be past the
// last one, so that no one invariant holds of both: a row is less than 4096, the row after at most 8192. Lists of
// expressions go on to 16384, since a target may itself be a row after a part.
#[derive(Drop)]
struct Walker<'a> {
    text: &'a [u8],
    work: &'a mut [u32],
    stack: ScopeStack,
}

impl<'a> Walker<'a> {
    // The row of the next target.
    #[tactic(auto, unfolding(crate::specs::WalkModel::next_target))]
    fn next_target(&self, i: usize) -> usize
        requires { i ≤ 8192 }
        ensures next { result ≡ next_target self.now.work.now i }
        ensures after { i < result }
    {
        match work_rows::kind(self.work, i) {
            line_kind::TUPLE => i + 1,
            _ => work_rows::after_row(self.work, i),
        }
    }

    // A row in target position.
    #[cycle(walks)]
    #[tactic(auto, unfolding(crate::specs::WalkModel::target_at))]
    fn target(&mut self, left: usize, scope: &Scope, i: usize)
        requires { i ≤ 8192 }
        ensures { Walked self.old (over (walk_target left self.old.text.now (scope_of scope.now) i)) self.new }
    {
        let work = &mut *self.work;
        match work_rows::kind(work, i) {
            line_kind::VAR => scope.define(work, work_rows::number(work, i)),
            line_kind::TUPLE => {} // its children are targets
            line_kind::INDEX | line_kind::GET => {
                let stop = work_rows::after_row(work, i);
                self.exprs(left, scope, i + 1, stop)
            }
            _ => work_marks::put_slot(work, i, FaultKind::InvalidTarget),
        }
    }

    // The rows in target position, from one to another.
    #[cycle(walks)]
    fn targets(&mut self, left: usize, scope: &Scope, first: usize, stop: usize)
        requires { stop ≤ 8192 }
        ensures { Walked self.old (over (walk_targets left self.old.text.now (scope_of scope.now) first stop)) self.new }
    {
        let mut at = first;
        while at < stop {
            let next = self.next_target(at);
            self.target(left, scope, at);
            at = next;
        }
    }

    // An expression.
    #[cycle(walks)]
    #[tactic(auto, using(crate::proofs::Ways::expr_ways), unfolding(crate::specs::WalkModel::expr_at))]
    fn expr(&mut self, left: usize, used: Use, scope: &Scope, i: usize)
        ensures { Walked self.old (over (walk_expr left self.old.text.now (is_called used) (scope_of scope.now) i)) self.new }
    {
        if left == 0 || ROWS_MOST <= i {
            return;
        }
        let work = &mut *self.work;
        let stop = work_rows::after_row(work, i);
        match work_rows::kind(work, i) {
            line_kind::VAR => {
                walk_judge::judge_read(work, scope, used, work_rows::number(work, i), i)
            }
            line_kind::CALL => {
                let rest = work_rows::after_row(work, i + 1);
                self.expr(left - 1, Use::Callee, scope, i + 1);
                self.exprs(left - 1, scope, rest, stop)
            }
            line_kind::LAMBDA => {
                let inner = scope.in_lambda(stop);
                walk_blocks::enter_block(self.text, work, &inner, i, stop);
                self.line(left - 1, &inner, i + 1)
            }
            _ => self.exprs(left - 1, scope, i + 1, stop),
        }
    }

    // A list of expressions.
    // Kept: a loop, here and in the lists of targets and statements: a closure for one row, in a cycle of calls, needs
    // a contract of its own, and is longer than the loop (each_row of walk_own_names is in no cycle).
    #[cycle(walks)]
    fn exprs(&mut self, left: usize, scope: &Scope, first: usize, stop: usize)
        requires { stop ≤ 16384 }
        ensures { Walked self.old (over (walk_exprs left self.old.text.now (scope_of scope.now) first stop)) self.new }
    {
        let mut at = first;
        while at < stop {
            let work = &mut *self.work;
            let next = work_rows::after_row(work, at);
            self.expr(left, Use::Value, scope, at);
            at = next;
        }
    }

    // An expression of a statement, outside of lambdas. It stands apart so that a level of statements has one place for
    // where it stands.
    #[cycle(walks)]
    fn value(&mut self, left: usize, i: usize)
        ensures { Walked self.old (over (walk_expr left self.old.text.now false (top_of self.old.stack) i)) self.new }
    {
        self.expr(left, Use::Value, &Scope::new(self.stack), i)
    }

    // The assignment at row i, up to the row stop: its value, and then its target.
    #[cycle(walks)]
    #[tactic(auto, unfolding(crate::specs::WalkModel::assign_at))]
    fn assign(&mut self, left: usize, i: usize, stop: usize)
        requires { (i < 4096) × (stop ≤ 8192) }
        ensures { let s = top_of self.old.stack in Walked self.old (over (assign_at (walk_expr left self.old.text.now false s) s i stop)) self.new }
    {
        let scope = Scope::new(self.stack);
        let work = &mut *self.work;
        let target = work_rows::after_row(work, i + 1);
        self.expr(left, Use::Value, &scope, i + 1);
        self.targets(left, &scope, target, stop)
    }

    // A statement, or another line of a block that is no expression.
    #[cycle(walks)]
    #[tactic(auto, using(crate::proofs::Ways::stmt_ways), unfolding(crate::specs::WalkModel::stmt_at))]
    fn stmt(&mut self, left: usize, i: usize)
        ensures { Walked self.old (walk_stmt left self.old.text.now i) self.new }
    {
        if left == 0 || ROWS_MOST <= i {
            return;
        }
        let work = &mut *self.work;
        let stop = work_rows::after_row(work, i);
        match work_rows::kind(work, i) {
            line_kind::DEF | line_kind::METHOD => self.block(left - 1, i, stop),
            line_kind::ASSIGN => self.assign(left - 1, i, stop),
            line_kind::FOR => {
                let name = work_rows::number(work, i);
                let body = work_rows::after_row(work, i + 1);
                self.value(left - 1, i + 1);
                self.stack.define(self.work, name);
                self.stmts(left - 1, body, stop)
            }
            line_kind::CLASS => {
                self.stack.define(work, work_rows::number(work, i));
                if self.stack.home == Home::Module {
                    self.stmts(left - 1, i + 1, stop)
                }
            }
            line_kind::ATTR => {}
            _ => self.stmts(left - 1, i + 1, stop),
        }
    }

    // A method has to have `self` as its first parameter.
    #[tactic(auto, unfolding(crate::specs::WalkModel::method_at))]
    fn judge_method(&mut self, i: usize)
        ensures { Walked self.old (over (method_at self.old.text.now i)) self.new }
    {
        let work = &mut *self.work;
        if walk_judge::lacks_self(self.text, work, i) {
            work_marks::put_slot(work, i, FaultKind::MethodWithoutSelf);
        }
    }

    // The row i of a def or a method: a def's name is bound, a method is judged.
    #[tactic(auto, unfolding(crate::specs::WalkModel::head_at, walk_scopes::specs::ScopesModel::defined))]
    fn head(&mut self, i: usize)
        ensures { Walked self.old (over (head_at self.old.text.now (top_of self.old.stack) i)) self.new }
    {
        let work = &mut *self.work;
        match work_rows::kind(work, i) {
            line_kind::DEF => self.stack.define(work, work_rows::number(work, i)),
            _ => self.judge_method(i),
        }
    }

    // Into the block of the def or the method at row i, up to the row stop: it is a scope of its own.
    #[tactic(auto, unfolding(crate::specs::WalkModel::begun_block))]
    fn begin_block(&mut self, i: usize, stop: usize)
        requires { (i < 4096) × (stop ≤ 8192) }
        ensures { Walked self.old (begun_block self.old.text.now i stop) self.new }
    {
        self.head(i);
        let work = &mut *self.work;
        self.stack.push(work, i);
        walk_blocks::enter_block(self.text, work, &Scope::new(self.stack), i, stop);
    }

    // The def or the method at row i, up to the row stop.
    #[cycle(walks)]
    #[tactic(auto, unfolding(crate::specs::WalkModel::block_at))]
    fn block(&mut self, left: usize, i: usize, stop: usize)
        requires { (i < 4096) × (stop ≤ 8192) }
        ensures { let text = self.old.text.now in Walked self.old (block_at (walk_line left text) text i stop) self.new }
    {
        self.begin_block(i, stop);
        self.stmts(left, i + 1, stop);
        let work = &mut *self.work;
        self.stack.pop(work);
    }

    // The body of a lambda, a line of either sort. A statement, which no text has there, is walked as a list of one: so
    // `stmt` has one caller, and is a part of it in the machine code.
    #[cycle(walks)]
    fn line(&mut self, left: usize, scope: &Scope, i: usize)
        requires { i < 8192 }
        ensures { Walked self.old (over (walk_body left self.old.text.now (scope_of scope.now) i)) self.new }
    {
        let work = &mut *self.work;
        if work_rows::kind(work, i) < line_kind::LIT {
            let around = self.stack;
            self.stack = scope.top;
            self.stmts(left, i, i + 1);
            self.stack = around;
        } else {
            self.expr(left, Use::Value, scope, i);
        }
    }

    // A list of statements, which may have expressions before them.
    #[cycle(walks)]
    fn stmts(&mut self, left: usize, first: usize, stop: usize)
        requires { stop ≤ 8192 }
        ensures { Walked self.old (walk_stmts left self.old.text.now first stop) self.new }
    {
        let mut at = first;
        while at < stop {
            let work = &mut *self.work;
            let next = work_rows::after_row(work, at);
            if work_rows::kind(work, at) < line_kind::LIT {
                self.stmt(left, at);
            } else {
                self.value(left, at);
            }
            at = next;
        }
    }
}

// Walks the tree of so many `global` lines and so many rows: afterwards the slot of each row has the kind of its fault,
// or 0.
// Kept: two numbers and no `Tree`, since they are the first row and the row after the last, here and in the report.
#[tactic(auto, unfolding(crate::specs::WalkModel::walked))]
pub fn walk(text: &[u8], work: &mut [u32], globals: usize, rows: usize)
    requires { rows ≤ 4096 }
    ensures { work.new ≡ walked text.now globals rows work.old }
{
    let stack = ScopeStack::new(rows);
    walk_given::bind_given(text, work, stack, globals, rows);
    let mut walker = Walker { text, work, stack };
    walker.stmts(rows, globals, rows);
}
