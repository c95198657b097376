// The work buffer's numbers: read and written at any index, and the parts of a row.
// Kept: functions of a buffer and a row, and no methods of a struct that lends it: after a read through a field a proof no
// longer knows what the buffer holds.
#![tactic(auto)]

ghost use Rattle.std.specs.Prelude.{◌≡◌, ◌+◌, ◌%◌, ◌<◌, ◌≤◌, get_or};
ghost use Rattle.work_rows.specs.Layout.{put, kind_at, lines_below, after_row, offset_at, same_at, number_at, name_base, name_of};
ghost use Rattle.work_rows.specs.SameForms.{same_number, same_of};

// The most rows.
pub const ROWS_MOST: usize = 4096;

// Where the rows' second numbers stand; where the heads of the names' chains begin and end.
pub const NAME_BASE: usize = 4096;

pub const HEAD_BASE: usize = 8192;

pub const HEAD_END: usize = 12288;

// A row's first number is its kind and LINE_KINDS times the lines below it; its second an offset and OFFSETS times
// `same`.
pub const LINE_KINDS: usize = 32;

pub const OFFSETS: usize = 65536;

// What stands above a row's offset: the earliest row that has its name; or, where this row is the earliest, the next row
// in the chain of the names that have its hash.
#[derive(Clone, Copy, PartialEq, Eq)]
pub enum SameName {
    Row(usize),
    Link(Option<usize>),
}

// The number at i, and 0 past the end.
// Kept: no Option, since an index is often a number of the buffer itself, and what follows from the 0 is defined too.
pub fn get(work: &[u32], i: usize) -> usize
    ensures { (result ≡ get_or work.now i 0) × (result < 4294967296) }
{
    work.get(i).copied().unwrap_or(0) as usize
}

// 32 bits of a number.
// Kept: the remainder, since the check wants of `n as u32` that nothing is lost, and takes no cast that cuts.
pub fn cut(n: usize) -> u32
    ensures { result ≡ n % 4294967296 }
{
    (n % 4294967296) as u32
}

// A number at i, if there is room; 32 bits of it.
// Kept: through `get_mut` of a slice a proof learns the length of what is written and none of its numbers.
pub fn put(work: &mut [u32], i: usize, v: usize)
    ensures { work.new ≡ put work.old i v }
{
    if i < work.len() {
        work[i] = cut(v);
    }
}

// The kind of a row's line.
pub fn kind(work: &[u32], i: usize) -> usize
    ensures { result ≡ kind_at work.now i }
{
    get(work, i) % LINE_KINDS
}

// How many lines are below it. Above them the walk has its marks.
pub fn lines_below(work: &[u32], i: usize) -> usize
    ensures { (result ≡ lines_below work.now i) × (result < 4096) }
{
    get(work, i) / LINE_KINDS % ROWS_MOST
}

// The row after the part that begins at row i.
// Kept: the `requires`, since no usize is the row after the last that a usize holds.
pub fn after_row(work: &[u32], i: usize) -> usize
    requires { i < 4294967296 }
    ensures { (result ≡ after_row work.now i) × (result ≤ i + 4096) }
{
    i + 1 + lines_below(work, i)
}

// Writes row i's second number. 32 bits of it are kept, so that the sum may wrap.
pub fn put_name(work: &mut [u32], i: usize, offset: usize, same: SameName)
    ensures { work.new ≡ put work.old (name_base + i) (name_of offset (same_number same)) }
{
    let above = match same {
        SameName::Row(first) => first,
        SameName::Link(next) => ROWS_MOST.wrapping_add(next.map_or(0, |j| j.wrapping_add(1))),
    };
    put(
        work,
        NAME_BASE.saturating_add(i),
        offset.wrapping_add(OFFSETS.wrapping_mul(above)),
    )
}

// Row i's second number.
fn second(work: &[u32], i: usize) -> usize
    ensures { result ≡ get_or work.now (name_base + i) 0 }
{
    get(work, NAME_BASE.saturating_add(i))
}

// Where its name starts, or the line if it has no name.
pub fn offset(work: &[u32], i: usize) -> usize
    ensures { result ≡ offset_at work.now i }
{
    second(work, i) % OFFSETS
}

// What stands above the offset.
pub fn same(work: &[u32], i: usize) -> SameName
    ensures { result ≡ same_of (same_at work.now i) }
{
    let s = second(work, i) / OFFSETS;
    match s.checked_sub(ROWS_MOST) {
        None => SameName::Row(s),
        Some(link) => SameName::Link(link.checked_sub(1)),
    }
}

// The number of its name: the earliest row that has it.
pub fn number(work: &[u32], i: usize) -> usize
    ensures { result ≡ number_at work.now i }
{
    match same(work, i) {
        SameName::Row(first) => first,
        SameName::Link(_) => i,
    }
}
