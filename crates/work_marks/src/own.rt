// How a name stands to the def around.
ghost use Rattle.std.specs.Prelude.{◌≡◌};
ghost use Rattle.work_marks.specs.Signs.{own_number, own_by_number};

// How the name of a `var` stands to the def around: none of the def's own names, one that is assigned at that row, or
// one that is not.
#[derive(Clone, Copy, PartialEq, Eq)]
pub enum Own {
    NotOwn,
    Assigned,
    Unassigned,
}

impl Own {
    // Its number in the work buffer.
    pub fn number(self) -> usize
        ensures { result ≡ own_number self }
    {
        self as usize
    }

    // The one with a number; any other number stands for no own name.
    pub fn by_number(number: usize) -> Own
        ensures { result ≡ own_by_number number }
    {
        match number {
            1 => Own::Assigned,
            2 => Own::Unassigned,
            _ => Own::NotOwn,
        }
    }
}
