// The public calls: check, report, message and name, each over a tree text and a work buffer. They read the tree,
// walk it, and list its faults.
#![tactic(auto)]

ghost use Rattle.std.specs.Prelude.{◌≡◌, ◌<◌, get_or, length};
ghost use Rattle.spec_answers.specs.Answers.{wrote_if, name};
ghost use Rattle.report_records.specs.RecordsModel.{numbers_of};
ghost use Rattle.report_messages.specs.MessagesModel.{record_message};
ghost use Rattle.serduzhap.specs.declared.ReportError.TheVariants as R;
ghost use Rattle.serduzhap.specs.declared.MessageError.TheVariants as M;
ghost use Rattle.serduzhap.specs.Calls.{Checks, Gives, report_number, report_detail, Reports, message_number, message_values, message_says, Messages, Names};

pub use read_bytes::NamePart;
use report_messages::Message;
use report_records::{RECORD, Record};
use spec_text::Refused;
use write_bytes::Output;

// Why no report is written: the text is refused, or its records do not fit the output, and then how many there are.
#[derive(Clone, Copy, PartialEq, Eq)]
pub enum ReportError {
    Refused(Refused),
    OutputTooShort { count: usize },
}

impl ReportError {
    // Its number: 1 to 7, or 16.
    pub fn number(self) -> usize
        ensures { result ≡ report_number self }
    {
        match self {
            ReportError::Refused(refused) => refused.why.number(),
            ReportError::OutputTooShort { .. } => 16,
        }
    }

    // What goes with it: a line, or the count.
    pub fn detail(self) -> usize
        ensures { result ≡ report_detail self }
    {
        match self {
            ReportError::Refused(refused) => refused.line,
            ReportError::OutputTooShort { count } => count,
        }
    }
}

impl From<Refused> for ReportError {
    ghost from_gives = { λ r e. e ≡ R.Refused r };

    fn from(r: Refused) -> ReportError {
        ReportError::Refused(r)
    }
}

// Why no message is written: the text is refused, there is no such fault, or the message is longer than the output.
#[derive(Clone, Copy, PartialEq, Eq)]
pub enum MessageError {
    Refused(Refused),
    NoFault,
    TooLong,
}

impl MessageError {
    // Its number: 1 to 7, 17 or 18.
    pub fn number(self) -> usize
        ensures { result ≡ message_number self }
    {
        match self {
            MessageError::Refused(refused) => refused.why.number(),
            MessageError::NoFault => 17,
            MessageError::TooLong => 18,
        }
    }

    // What goes with it: a line, or 0, since nothing goes with 17 and 18.
    // Kept: 0 and no Option, since in an answer for C a 0 stands there.
    pub fn detail(self) -> usize
        ensures { result ≡ get_or (message_values self) 0 0 }
    {
        match self {
            MessageError::Refused(refused) => refused.line,
            MessageError::NoFault | MessageError::TooLong => 0,
        }
    }
}

impl From<Refused> for MessageError {
    ghost from_gives = { λ r e. e ≡ M.Refused r };

    fn from(r: Refused) -> MessageError {
        MessageError::Refused(r)
    }
}

// Accepted, where there is no record; else that of the first fault.
pub fn check(text: &[u8], work: &mut [u32]) -> Result<Option<Record>, Refused>
    ensures { Checks text.now (length work.old) result }
{
    let count = find_faults::find(text, work)?;
    if count == 0 {
        return Ok(None);
    }
    Ok(Some(find_faults::record_at(text, work, 0)))
}

// Writes all faults to the output as records, and answers their count.
#[tactic(auto, using(crate::proofs::Cases::report_short, crate::proofs::Cases::report_written))]
pub fn report(text: &[u8], work: &mut [u32], out: &mut [u32]) -> Result<usize, ReportError>
    ensures { Reports text.now (length work.old) out.old out.new result }
{
    let count = find_faults::find(text, work)?;
    if out.len() < RECORD * count {
        return Err(ReportError::OutputTooShort { count });
    }
    write_records::write_records(text, work, out, count);
    Ok(count)
}

// Writes the message of a record, if there is room for it.
#[tactic(auto, using(crate::proofs::Over::too_long, crate::proofs::Over::fits))]
fn write_message(text: &[u8], out: &mut [u8], r: Record) -> Result<usize, MessageError>
    requires { length text.now < 4294967296 }
    ensures { Gives (wrote_if (length out.old) (record_message text.now (numbers_of r))) out.old out.new (message_says result) }
{
    let message = Message::of(text, r);
    let len = message.len();
    if out.len() < len {
        return Err(MessageError::TooLong);
    }
    message.push(&mut Output::new(out));
    Ok(len)
}

// Writes the message of fault i, and answers its length.
pub fn message(
    text: &[u8],
    work: &mut [u32],
    i: usize,
    out: &mut [u8],
) -> Result<usize, MessageError>
    ensures { Messages text.now (length work.old) i out.old out.new result }
{
    let count = find_faults::find(text, work)?;
    if count <= i {
        return Err(MessageError::NoFault);
    }
    write_message(text, out, find_faults::record_at(text, work, i))
}

// Where the name of fault i stands in the text.
// Kept: no Option and no Result, since the documents say: "The part is empty, at offset 0, for kind 14, for any of
// refusals 1 to 7 and where no fault i exists".
pub fn name_part(text: &[u8], work: &mut [u32], i: usize) -> NamePart
    ensures { Names text.now (length work.old) i result }
{
    let count = find_faults::find(text, work).unwrap_or(0);
    if count <= i {
        return NamePart::default();
    }
    find_faults::record_at(text, work, i).name
}

// The name of fault i, a part of the text; empty where there is none.
pub fn name<'a>(text: &'a [u8], work: &mut [u32], i: usize) -> &'a [u8]
    ensures { result.now ≡ (name text.now (length work.old) i).bytes }
{
    name_part(text, work, i).of(text)
}
