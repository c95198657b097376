// Lines that are due.
ghost use Rattle.std.specs.Prelude.{◌<◌};

use spec_text::Sort;

// Their sort, the levels left for each, and how many.
#[derive(Clone, Copy, PartialEq, Eq)]
pub struct Due {
    pub sort: Sort,
    pub levels: usize,
    pub count: usize,
    ghost in_range: { (levels < 128) × (count < 4294967296) },
}
