// Messages in the Rust's words: the words of a kind, from one table, round the names.
#![tactic(auto)]

ghost use Rattle.std.specs.Prelude.{◌≡◌, [], ◌++◌, ◌+◌, ◌*◌, ◌<◌, ◌≤◌, length};
ghost use Rattle.write_bytes.specs.OutputModel.{Pushed};
ghost use Rattle.report_records.specs.RecordsModel.{numbers_of};
ghost use Rattle.report_messages.specs.MessagesModel.{record_message, whole};
ghost use Rattle.report_messages.specs.TextsModel.{past_field, words_start, Rule};

use report_records::{Record, RecordNumbers};
use spec_faults::FaultKind;
use write_bytes::Output;

// A line for each kind, from the first on: the words before the name, those after it, and those after the name of the class. A tab
// ends the first and the second, LF the third.
const TEXTS: &[u8] = b"\
    Undefined variable: \t\t\n\
    Undefined function: \t\t\n\
    Undefined variable '\t' captured by lambda\t\n\
    Unbound local variable: \t\t\n\
    Unbound local function: \t\t\n\
    Unbound local variable '\t' captured by lambda\t\n\
    Invalid assignment target: cannot assign to literal, call, or expression\t\t\n\
    Method '\t' in class '\t' must have 'self' as first parameter\n";

// Where the field after the one at an offset starts.
fn past_field(texts: &[u8], at: usize) -> usize
    requires { (length texts.now ≤ 4096) × (at ≤ 131072) }
    ensures { (result ≡ past_field texts.now at) × (result ≤ at + 4097) }
{
    at + read_fields::field(texts, at).len() + 1
}

// Where line n of a table of texts starts, from 0 on.
// Kept: offsets in one table, which one rule holds to the eight texts: a `match` with three texts an arm would be as
// long, and have a rule for each.
fn words_start(texts: &[u8], n: usize) -> usize
    requires { (length texts.now ≤ 4096) × (n ≤ 8) }
    ensures { (result ≡ words_start n texts.now 0) × (result ≤ 12291 * 8) }
{
    let mut at = 0;
    for _line in 0..n {
        let between = past_field(texts, at);
        let after = past_field(texts, between);
        at = past_field(texts, after);
    }
    at
}

// A message in parts: the words of its kind, round the two names.
#[derive(Clone, Copy, PartialEq, Eq)]
pub struct Message<'a> {
    pub before: &'a [u8],
    pub name: &'a [u8],
    pub between: &'a [u8],
    pub class: &'a [u8],
    pub after: &'a [u8],
}

impl<'a> Message<'a> {
    // The message of a record.
    pub fn of(text: &'a [u8], r: Record) -> Message<'a>
        ensures message { whole result ≡ record_message text.now (numbers_of r) }
        ensures short { length (whole result) ≤ 12288 + 2 * length text.now }
    {
        Message::of_numbers(text, r.numbers())
    }

    // The message of a record's numbers; of a number that is no kind, no bytes.
    pub fn of_numbers(text: &'a [u8], r: RecordNumbers) -> Message<'a>
        ensures message { whole result ≡ record_message text.now r }
        ensures short { length (whole result) ≤ 12288 + 2 * length text.now }
    {
        let first = FaultKind::UndefinedVariable.number();
        let last = FaultKind::MethodWithoutSelf.number();
        if r.kind < first || last < r.kind {
            return Message::empty();
        }
        let texts = TEXTS;
        let a = words_start(texts, r.kind - first);
        let b = past_field(texts, a);
        let c = past_field(texts, b);
        Message {
            before: read_fields::field(texts, a),
            name: r.name.of(text),
            between: read_fields::field(texts, b),
            class: r.class.of(text),
            after: read_fields::field(texts, c),
        }
    }

    // No words and no names.
    fn empty() -> Message<'a>
        ensures { whole result ≡ [] }
    {
        Message {
            before: &[],
            name: &[],
            between: &[],
            class: &[],
            after: &[],
        }
    }

    // How many bytes it has.
    pub fn len(&self) -> usize
        requires { length (whole self.now) < 18446744073709551616 }
        ensures { result ≡ length (whole self.now) }
    {
        self.before.len()
            + self.name.len()
            + self.between.len()
            + self.class.len()
            + self.after.len()
    }

    // Pushes it.
    pub fn push(&self, output: &mut Output)
        ensures { Pushed output.old (whole self.now) output.new }
    {
        output.push(self.before);
        output.push(self.name);
        output.push(self.between);
        output.push(self.class);
        output.push(self.after);
    }
}
