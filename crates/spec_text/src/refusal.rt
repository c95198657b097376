// Why a text is refused: refusals 1 to 7. 16 to 18 are errors of the calls (crate serduzhap).
ghost use Rattle.std.specs.Prelude.{◌≡◌};
ghost use Rattle.spec_text.specs.Numbers.{refusal_number};

// Why a text is not read.
#[derive(Clone, Copy, PartialEq, Eq)]
pub enum Refusal {
    TextTooLong, // the text has over 65,536 bytes
    WorkTooShort, // the work buffer has under 16,384 numbers
    LineMissing, // the text ends and a line is due
    LineLeft, // a line is left and none is due
    Malformed, // unknown word, wrong fields, bad name or number, no LF
    NotDue, // well formed, not due here
    OverLimit, // over 4,096 lines, depth 64 or 16 parameters
}

impl Refusal {
    // Its number in the documents.
    pub fn number(self) -> usize
        ensures { result ≡ refusal_number self }
    {
        self as usize + 1
    }
}

// A text that is not read, and its line: the one that is wrong, missing or left; 0 for the first two.
// Kept: no Option of a line, since the documents say: "1 to 7 carry a line number from 1 (0 for 1 and 2)".
#[derive(Clone, Copy, PartialEq, Eq)]
pub struct Refused {
    pub why: Refusal,
    pub line: usize,
}
