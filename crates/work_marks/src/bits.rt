// The parts of the work buffer's numbers in which the walk keeps what it finds.
ghost use Rattle.std.specs.Prelude.{◌≡◌, ◌*◌, ◌<◌, ◌≤◌};

use crate::MARKS;
use work_rows::ROWS_MOST;

// A part of each of the numbers from `base` on: what stands below it is less than `below`, and it has so many values.
#[derive(Clone, Copy, PartialEq, Eq)]
pub struct Bits {
    pub base: usize,
    pub below: usize,
    pub values: usize,
    ghost one_below: { 0 < below },
    ghost one_value: { 0 < values },
    ghost in_32_bits: { below * values ≤ 4294967296 },
}

impl Bits {
    ghost use Rattle.work_marks.specs.Parts.{part_at, put_part, raised_part};

    // The part of the number at `base + i`, and 0 past the end.
    #[inline]
    pub fn get(self, work: &[u32], i: usize) -> usize
        ensures value { result ≡ part_at self work.now i }
        ensures below_values { result < self.values }
    {
        work_rows::get(work, self.base.saturating_add(i)) / self.below % self.values
    }

    // Writes it, if there is room; what is above and below it stays.
    #[inline]
    pub fn put(self, work: &mut [u32], i: usize, v: usize)
        ensures { work.new ≡ put_part self work.old i v }
    {
        let at = self.base.saturating_add(i);
        let x = work_rows::get(work, at);
        let above = self.below * self.values;
        let low = x % self.below;
        work_rows::put(
            work,
            at,
            low + self.below * (v % self.values) + above * (x / above),
        )
    }

    // Raises the mark of a name to a row, if it is before that.
    // Kept: `name < ROWS_MOST`, and no type for a name's row: a name's number comes out of the buffer, and whatever
    // stands there, the test keeps the mark in its region.
    #[inline]
    #[tactic(auto, unfolding(crate::specs::Parts::raised_part))]
    pub fn raise(self, work: &mut [u32], name: usize, end: usize)
        ensures { work.new ≡ raised_part self work.old name end }
    {
        if name < ROWS_MOST && self.get(work, name) < end {
            self.put(work, name, end % MARKS);
        }
    }
}
