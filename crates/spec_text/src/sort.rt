// Sorts of lines: where a line is due (`sort_of` in specs/Lines).
ghost use Rattle.std.specs.Prelude.{◌≡◌};
ghost use Rattle.spec_text.specs.SortsModel.{sort_number};

// Where a line is due.
#[derive(Clone, Copy, PartialEq, Eq, Default)]
pub enum Sort {
    #[default]
    Tree,
    Global,
    Elif,
    Method,
    Attr,
    Stmt,
    Expr,
}

impl Sort {
    // Its number in the agenda.
    pub fn number(self) -> usize
        ensures { result ≡ sort_number self }
    {
        self as usize
    }
}
