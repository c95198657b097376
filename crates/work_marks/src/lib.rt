// Marks of names and slots of rows, in the bits of the work buffer that the rows and the names leave free.
#![tactic(auto)]

ghost use Rattle.std.specs.Prelude.{◌≡◌, ◌<◌, ◌+◌, min, length, not, eqb};
ghost use Rattle.spec_faults.specs.Kinds.{kind_number};
ghost use Rattle.work_marks.specs.MarksModel.{lambda_end, block_end, slot_at, stamp_at, flag_at, link_at, put_slot};
ghost use Rattle.work_marks.specs.MarksModel.{put_stamp, put_flag, put_link, unmarked, unstamped, raised_lambda};
ghost use Rattle.work_marks.specs.MarksModel.{raised_block};
ghost use Rattle.work_marks.specs.Signs.{fault_of, own_number, own_by_number};

use spec_faults::FaultKind;
use std::ops::Range;
use work_rows::HEAD_BASE;

mod bits;
mod own;

use bits::Bits;
pub use own::Own;

// Where the stamps stand.
const STAMP_BASE: usize = 12288;

// How many values a mark or a stamp has.
const MARKS: usize = 8192;

// A row that no read is at or after: the largest that a stamp holds.
// Kept: a row and no enum, since it is only compared with rows, as any stamp is.
pub const NEVER: usize = 8191;

// A mark of a lambda stands above a row, that of a block above the head of a chain of names, and a slot above that.
const LAMBDA_END: Bits = Bits {
    base: 0,
    below: 131072,
    values: 32768,
};

const BLOCK_END: Bits = Bits {
    base: HEAD_BASE,
    below: 8192,
    values: MARKS,
};

const SLOT: Bits = Bits {
    base: HEAD_BASE,
    below: 67108864,
    values: 64,
};

// Above a stamp stand a flag or a link.
const STAMP: Bits = Bits {
    base: STAMP_BASE,
    below: 1,
    values: MARKS,
};

const LINK: Bits = Bits {
    base: STAMP_BASE,
    below: 8192,
    values: 524288,
};

// The row after the outermost lambda around that has the name as a parameter.
// Kept: of marks and stamps 0 for none, and no Option: each is only compared with a row, and none is before row 0.
pub fn lambda_end(work: &[u32], name: usize) -> usize
    ensures { result ≡ lambda_end work.now name }
{
    LAMBDA_END.get(work, name)
}

// The row after the outermost block around that binds the name.
pub fn block_end(work: &[u32], name: usize) -> usize
    ensures { result ≡ block_end work.now name }
{
    BLOCK_END.get(work, name)
}

// The name is open as a parameter of a lambda up to the row `end`, at least.
#[tactic(auto, unfolding(crate::specs::MarksModel::raised_lambda, crate::specs::Parts::raised_part))]
pub fn raise_lambda(work: &mut [u32], name: usize, end: usize)
    ensures { work.new ≡ raised_lambda work.old name end }
{
    LAMBDA_END.raise(work, name, end)
}

// The name is bound up to the row `end`, at least.
#[tactic(auto, unfolding(crate::specs::MarksModel::raised_block, crate::specs::Parts::raised_part))]
pub fn raise_block(work: &mut [u32], name: usize, end: usize)
    ensures { work.new ≡ raised_block work.old name end }
{
    BLOCK_END.raise(work, name, end)
}

// The slot of row i: the number of its fault's kind, or 0.
pub fn slot(work: &[u32], i: usize) -> usize
    ensures { result ≡ slot_at work.now i }
{
    SLOT.get(work, i)
}

// Whether row i has a fault: whether its slot has a number.
// Kept: apart from `fault`, since what is asked is whether a slot has any number (`any_fault`).
pub fn has_fault(work: &[u32], i: usize) -> bool
    ensures { result ≡ not (eqb (slot_at work.now i) 0) }
{
    slot(work, i) != 0
}

// The kind of row i's fault, if its slot has the number of a kind.
pub fn fault(work: &[u32], i: usize) -> Option<FaultKind>
    ensures { result ≡ fault_of (slot_at work.now i) }
{
    match slot(work, i) {
        number @ 8..=15 => Some(FaultKind::by_number(number)),
        _ => None,
    }
}

#[tactic(auto, unfolding(crate::specs::MarksModel::put_slot))]
pub fn put_slot(work: &mut [u32], i: usize, kind: FaultKind)
    ensures { work.new ≡ put_slot work.old i (kind_number kind) }
{
    SLOT.put(work, i, kind.number())
}

// The stamp of a name: the row from which it is assigned in the def whose own names are being gathered, if it comes
// after that def's row.
pub fn stamp(work: &[u32], name: usize) -> usize
    ensures { result ≡ stamp_at work.now name }
{
    STAMP.get(work, name)
}

pub fn put_stamp(work: &mut [u32], name: usize, from: usize)
    ensures { work.new ≡ put_stamp work.old name from }
{
    STAMP.put(work, name, from)
}

// The flag of the `var` at row i: how its name stands to the def around.
pub fn flag(work: &[u32], i: usize) -> Own
    ensures { result ≡ own_by_number (flag_at work.now i) }
{
    Own::by_number(LINK.get(work, i))
}

pub fn put_flag(work: &mut [u32], i: usize, own: Own)
    ensures { work.new ≡ put_flag work.old i (own_number own) }
{
    LINK.put(work, i, own.number())
}

// The link of the def, method or lambda at row i: the row of the scope around. It stands where a `var` has its flag.
pub fn link(work: &[u32], i: usize) -> usize
    ensures value { result ≡ link_at work.now i }
    ensures in_19_bits { result < 524288 }
{
    LINK.get(work, i)
}

pub fn put_link(work: &mut [u32], i: usize, row: usize)
    ensures { work.new ≡ put_link work.old i row }
{
    LINK.put(work, i, row)
}

// Where the numbers of the first rows from `base` on stand: as many as the buffer has.
fn first_rows(work: &[u32], base: usize, rows: usize) -> Range<usize>
    ensures { (result.start ≡ min base (length work.now)) × (result.end ≡ min (base + rows) (length work.now)) }
{
    base.min(work.len())..base.saturating_add(rows).min(work.len())
}

// Of the first rows no mark of a block and no fault is left. The heads of the chains of names stay.
pub fn forget_marks(work: &mut [u32], rows: usize)
    ensures { work.new ≡ unmarked rows work.old }
{
    let part = first_rows(work, HEAD_BASE, rows);
    for x in work[part].iter_mut() {
        *x %= 8192;
    }
}

// Of the first rows no stamp, flag or link is left.
pub fn forget_stamps(work: &mut [u32], rows: usize)
    ensures { work.new ≡ unstamped rows work.old }
{
    let part = first_rows(work, STAMP_BASE, rows);
    work[part].fill(0)
}
