// Kinds of faults.
ghost use Rattle.std.specs.Prelude.{◌≡◌};
ghost use Rattle.spec_faults.specs.Kinds.{kind_number};
ghost use Rattle.spec_faults.specs.KindsModel.{kind_by_number};

// The kind of a fault.
#[derive(Clone, Copy, PartialEq, Eq)]
pub enum FaultKind {
    UndefinedVariable,
    UndefinedFunction,
    UndefinedCapture,
    UnboundVariable,
    UnboundFunction,
    UnboundCapture,
    InvalidTarget,
    MethodWithoutSelf,
}

impl FaultKind {
    // Its number in the documents: 8 to 15.
    // Kept: a named method, here and of the other enums: `usize::from(kind)` would not say whose number it is.
    pub fn number(self) -> usize
        ensures { result ≡ kind_number self }
    {
        self as usize + 8
    }

    // The kind with a number; of any other number, the kind with the same last three bits.
    pub fn by_number(number: usize) -> FaultKind
        ensures { result ≡ kind_by_number number }
    {
        match number % 8 {
            0 => FaultKind::UndefinedVariable,
            1 => FaultKind::UndefinedFunction,
            2 => FaultKind::UndefinedCapture,
            3 => FaultKind::UnboundVariable,
            4 => FaultKind::UnboundFunction,
            5 => FaultKind::UnboundCapture,
            6 => FaultKind::InvalidTarget,
            _ => FaultKind::MethodWithoutSelf,
        }
    }
}
