// The list of the entries that are written to the work buffer, past the rows and the slots.
ghost use Rattle.std.specs.Prelude.{◌≡◌, [], ◌∷◌, ◌+◌, ◌-◌, ◌<◌, ◌≤◌};
ghost use Rattle.report_order.specs.OrderModel.{entry, fault_in, captured, captures, called, itself, around, placed_at, entries};
ghost use Rattle.report_order.specs.ListModel.{Listed};

use crate::{Around, ENTRY_BASE, Entry, is_called, is_capture, is_its_own_place};
use spec_faults::FaultKind;
use spec_text::line_kind;
use work_rows::ROWS_MOST;

// So many entries, in this buffer. Those that it has no room for are counted too.
// A method that writes takes the buffer as `work` first, also to read.
// Kept: `p < 4096` where `p + 1` or the row after row p is made, and no invariant, since row p is no part of the list.
#[derive(Drop)]
pub struct Entries<'a> {
    pub work: &'a mut [u32],
    pub count: usize,
}

impl<'a> Entries<'a> {
    // The kind of row i's fault, if it has one; past the last row there is none: there the entries stand.
    fn fault(&self, i: usize) -> Option<FaultKind>
        ensures { result ≡ fault_in self.now.work.now i }
    {
        if i < ROWS_MOST {
            work_marks::fault(self.work, i)
        } else {
            None
        }
    }

    // What is around the rows below row p.
    #[tactic(auto, unfolding(crate::specs::OrderModel::around))]
    fn next_around(&self, x: Around, p: usize) -> Around
        requires { p < 4096 }
        ensures { result ≡ around self.now.work.now x p }
    {
        match work_rows::kind(self.work, p) {
            line_kind::LAMBDA if x.lambda <= p => Around {
                lambda: work_rows::after_row(self.work, p),
                ..x
            },
            line_kind::CLASS if x.end <= p => Around {
                class: p,
                end: work_rows::after_row(self.work, p),
                ..x
            },
            _ => x,
        }
    }

    // Writes one entry more, if there is room. The count stays at the last number that a usize holds: no report has as
    // many entries.
    #[tactic(auto, unfolding(crate::specs::OrderModel::stored))]
    fn add(&mut self, e: Entry)
        ensures { Listed self.old (entry e.kind e.of e.row ∷ []) self.new }
    {
        work_rows::put(self.work, ENTRY_BASE.saturating_add(self.count), e.number());
        self.count = self.count.saturating_add(1);
    }

    // Lists row i if it is captured by the lambda at row p.
    #[tactic(auto, unfolding(crate::specs::OrderModel::stored, crate::specs::OrderModel::captured))]
    fn list_capture(&mut self, p: usize, i: usize)
        ensures { Listed self.old (captured self.old.work.now p i) self.new }
    {
        let Some(kind) = self.fault(i) else {
            return;
        };
        if is_capture(kind) {
            self.add(Entry {
                kind: kind.number(),
                of: p,
                row: i,
            });
        }
    }

    // Lists the captures of the lambda at row p, from its first row below up to the row stop.
    #[tactic(auto, using(crate::proofs::AtRow::row_more))]
    fn list_captures(&mut self, p: usize, stop: usize)
        requires { p < 4096 }
        ensures { Listed self.old (captures self.old.work.now p (stop - (p + 1)) (p + 1)) self.new }
    {
        for i in p + 1..stop {
            self.list_capture(p, i);
        }
    }

    // Lists the callee of the call at row p.
    #[tactic(auto, unfolding(crate::specs::OrderModel::stored, crate::specs::OrderModel::called))]
    fn list_called(&mut self, p: usize)
        requires { p < 4096 }
        ensures { Listed self.old (called self.old.work.now p) self.new }
    {
        let Some(kind) = self.fault(p + 1) else {
            return;
        };
        if is_called(kind) {
            self.add(Entry {
                kind: kind.number(),
                of: p,
                row: p + 1,
            });
        }
    }

    // Lists row p itself; the span of a method's fault is that of its class.
    #[tactic(auto, unfolding(crate::specs::OrderModel::stored, crate::specs::OrderModel::itself))]
    fn list_itself(&mut self, class: usize, p: usize)
        ensures { Listed self.old (itself self.old.work.now class p) self.new }
    {
        let Some(kind) = self.fault(p) else {
            return;
        };
        if is_its_own_place(kind) {
            self.add(Entry {
                kind: kind.number(),
                of: p,
                row: p,
            });
        } else if kind == FaultKind::MethodWithoutSelf {
            self.add(Entry {
                kind: kind.number(),
                of: class,
                row: p,
            });
        }
    }

    // Lists the faults that have row p as their place, and answers what is around the rows below it.
    fn list_row(&mut self, x: Around, p: usize) -> Around
        requires { p < 4096 }
        ensures listed { Listed self.old (placed_at self.old.work.now x p) self.new }
        ensures below { result ≡ around self.old.work.now x p }
    {
        let below = self.next_around(x, p);
        let work = &mut *self.work;
        let kind = work_rows::kind(work, p);
        let stop = work_rows::after_row(work, p);
        self.list_itself(below.class, p);
        match kind {
            line_kind::LAMBDA if x.lambda <= p => self.list_captures(p, stop),
            line_kind::CALL => self.list_called(p),
            _ => {}
        }
        below
    }

    // Lists the faults of the rows from `first` up to `rows`.
    #[tactic(auto, using(crate::proofs::AtRow::row_more))]
    pub fn list_rows(&mut self, first: usize, rows: usize)
        requires { rows ≤ 4096 }
        ensures { Listed self.old (entries self.old.work.now first rows) self.new }
    {
        let mut x = Around::default();
        for p in first..rows {
            x = self.list_row(x, p);
        }
    }
}
