// The record of a listed fault: seven numbers.
#![tactic(auto)]

ghost use Rattle.std.specs.Prelude.{◌≡◌, ◌++◌, length, take, drop};
ghost use Rattle.report_records.specs.RecordsModel.{record_of, record_by, numbers_of, numbers32};

use read_bytes::NamePart;
use report_order::Entry;
use spec_faults::FaultKind;
use work_rows::cut;

// How many numbers a record has.
pub const RECORD: usize = 7;

// The fault's kind, its span, its name, and the name of its class.
#[derive(Clone, Copy, PartialEq, Eq)]
pub struct Record {
    pub kind: FaultKind,
    pub start: u32,
    pub end: u32,
    pub name: NamePart,
    pub class: NamePart,
}

// A record as its numbers stand in a buffer.
// Kept: beside Record, since in a buffer any number may stand where that of a kind belongs, and as it stands it is
// written and printed.
#[derive(Clone, Copy, PartialEq, Eq)]
pub struct RecordNumbers {
    pub kind: usize,
    pub start: u32,
    pub end: u32,
    pub name: NamePart,
    pub class: NamePart,
}

// The record of an entry.
#[tactic(auto, unfolding(crate::specs::RecordsModel::record_of))]
pub fn record_of(text: &[u8], work: &[u32], e: Entry) -> RecordNumbers
    ensures { result ≡ record_of text.now work.now e }
{
    let of = read_row::line_of_row(text, work, e.of);
    let row = read_row::line_of_row(text, work, e.row);
    RecordNumbers {
        kind: e.kind,
        start: of.start,
        end: of.end,
        name: if e.kind == FaultKind::InvalidTarget.number() {
            NamePart::default()
        } else {
            row.name
        },
        class: if e.kind == FaultKind::MethodWithoutSelf.number() {
            of.name
        } else {
            NamePart::default()
        },
    }
}

impl RecordNumbers {
    // Writes the seven numbers to the start of a slice, 32 bits of each, as many as there is room for.
    pub fn put(self, to: &mut [u32])
        ensures { to.new ≡ take (length to.old) (numbers32 self) ++ drop 7 to.old }
    {
        let numbers = [
            cut(self.kind),
            self.start,
            self.end,
            cut(self.name.offset),
            cut(self.name.len),
            cut(self.class.offset),
            cut(self.class.len),
        ];
        let len = to.len().min(RECORD);
        to[..len].copy_from_slice(&numbers[..len]);
    }

    // The record that has these numbers; of a number that is no kind, the kind is that of its last three bits.
    pub fn record(self) -> Record
        ensures { result ≡ record_by self }
    {
        Record {
            kind: FaultKind::by_number(self.kind),
            start: self.start,
            end: self.end,
            name: self.name,
            class: self.class,
        }
    }
}

impl Record {
    // Its numbers.
    pub fn numbers(self) -> RecordNumbers
        ensures { result ≡ numbers_of self }
    {
        RecordNumbers {
            kind: self.kind.number(),
            start: self.start,
            end: self.end,
            name: self.name,
            class: self.class,
        }
    }

    // Writes its seven numbers to the start of a slice, 32 bits of each, as many as there is room for.
    pub fn put(self, to: &mut [u32])
        ensures { to.new ≡ take (length to.old) (numbers32 (numbers_of self)) ++ drop 7 to.old }
    {
        self.numbers().put(to)
    }
}
