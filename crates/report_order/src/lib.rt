// Lists the faults in the report's order, from the slots: at each row those that have it as their place.
#![tactic(auto)]

ghost use Rattle.std.specs.Prelude.{◌≡◌, ◌||◌, ◌%◌, ◌<◌, ◌≤◌, eqb, length};
ghost use Rattle.spec_faults.specs.Faults.{capture};
ghost use Rattle.spec_faults.specs.Kinds.{kind_number};
ghost use Rattle.work_marks.specs.MarksModel.{slot_at};
ghost use Rattle.report_order.specs.OrderModel.{entry, entry_of, entries, stored, entry_at, any_fault};

use spec_faults::FaultKind;

mod list;

use list::Entries;

// Where the entries stand.
const ENTRY_BASE: usize = 12288;

// An entry is the number of its kind, the row whose span it shows, and the row whose name it shows.
const ENTRY_ROWS: usize = 8192;

const ENTRY_KINDS: usize = 67108864;

// Kept: a number and no `FaultKind`, since an entry is read from any buffer, and there any number may stand.
#[derive(Clone, Copy, PartialEq, Eq)]
pub struct Entry {
    pub kind: usize,
    pub of: usize,
    pub row: usize,
}

impl Entry {
    // 32 bits of it are written, so that the sum may wrap.
    fn number(self) -> usize
        ensures { result % 4294967296 ≡ entry self.kind self.of self.row % 4294967296 }
    {
        ENTRY_KINDS
            .wrapping_mul(self.kind)
            .wrapping_add(ENTRY_ROWS.wrapping_mul(self.of))
            .wrapping_add(self.row)
    }

    fn of_number(number: usize) -> Entry
        ensures { result ≡ entry_of number }
    {
        Entry {
            kind: number / ENTRY_KINDS,
            of: number / ENTRY_ROWS % ENTRY_ROWS,
            row: number % ENTRY_ROWS,
        }
    }
}

// What is around a row: the row after the outermost lambda, the outermost class, and the row after that.
// Kept: 0 for none: ends are only compared with rows, and the class is asked for at a method alone, which has one around.
#[derive(Clone, Copy, PartialEq, Eq, Default)]
pub struct Around {
    pub lambda: usize,
    pub class: usize,
    pub end: usize,
}

// The kinds of a callee, of a capture, and of a row that is its own place and shows its own span.
fn is_called(kind: FaultKind) -> bool
    ensures { result ≡ (eqb (kind_number kind) 9 || eqb (kind_number kind) 12) }
{
    matches!(
        kind,
        FaultKind::UndefinedFunction | FaultKind::UnboundFunction
    )
}

fn is_capture(kind: FaultKind) -> bool
    ensures { result ≡ capture (kind_number kind) }
{
    matches!(
        kind,
        FaultKind::UndefinedCapture | FaultKind::UnboundCapture
    )
}

fn is_its_own_place(kind: FaultKind) -> bool
    ensures { result ≡ (eqb (kind_number kind) 8 || (eqb (kind_number kind) 11 || eqb (kind_number kind) 14)) }
{
    matches!(
        kind,
        FaultKind::UndefinedVariable | FaultKind::UnboundVariable | FaultKind::InvalidTarget
    )
}

// Whether one of the rows from `first` up to `rows` has a fault.
#[tactic(auto, unfolding(crate::specs::OrderModel::any_slot))]
pub fn any_fault(work: &[u32], first: usize, rows: usize) -> bool
    ensures { result ≡ any_fault work.now first rows }
{
    (first..rows).any(|i| work_marks::has_fault(work, i))
}

// Lists the faults of the rows from `first` up to `rows`, and answers how many there are.
#[tactic(auto, using(crate::proofs::AtRow::entries_few))]
pub fn list_faults(work: &mut [u32], first: usize, rows: usize) -> usize
    requires { rows ≤ 4096 }
    ensures { (work.new ≡ stored (entries work.old first rows) 0 work.old) × (result ≡ length (entries work.old first rows)) }
{
    let mut list = Entries { work, count: 0 };
    list.list_rows(first, rows);
    list.count
}

// The entry number j.
pub fn entry_at(work: &[u32], j: usize) -> Entry
    ensures { result ≡ entry_at work.now j }
{
    Entry::of_number(work_rows::get(work, ENTRY_BASE.saturating_add(j)))
}
