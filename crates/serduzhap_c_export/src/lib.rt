// The calls of serduzhap_c under the names that C links: a slice is a pointer and a count. include/serduzhap.h is the header.
// Kept: the five calls stand here and there, since C links by these names, and every target wants the calls.
#![tactic(auto)]

ghost use Rattle.std.specs.Prelude.{◌≡◌, length};
ghost use Rattle.spec_answers.specs.Answers.{check, over, report, message, name};
ghost use Rattle.serduzhap_c.specs.Numbers.{answer_of, part_answer, version};

use serduzhap_c::{CHECK_ANSWER, MESSAGE_ANSWER, NAME_ANSWER, REPORT_ANSWER, VERSION_ANSWER};

// Accepted, or the first fault.
#[unsafe(no_mangle)]
pub extern "C" fn serduzhap_check(text: &[u8], work: &mut [u32], answer: &mut [u32; CHECK_ANSWER])
    ensures { answer.new ≡ answer_of 7 (check text.now (length work.old)) }
{
    serduzhap_c::serduzhap_check(text, work, answer);
}

// Writes all faults to the output as records of seven numbers.
#[unsafe(no_mangle)]
pub extern "C" fn serduzhap_report(
    text: &[u8],
    work: &mut [u32],
    out: &mut [u32],
    answer: &mut [u32; REPORT_ANSWER],
)
    ensures answer_after { answer.new ≡ answer_of 2 (report text.now (length work.old) (length out.old)).answer }
    ensures out_after { out.new ≡ over (report text.now (length work.old) (length out.old)).writes out.old }
{
    serduzhap_c::serduzhap_report(text, work, out, answer);
}

// Writes the message of fault i to the output.
#[unsafe(no_mangle)]
pub extern "C" fn serduzhap_message(
    text: &[u8],
    work: &mut [u32],
    i: usize,
    out: &mut [u8],
    answer: &mut [u32; MESSAGE_ANSWER],
)
    ensures answer_after { answer.new ≡ answer_of 2 (message text.now (length work.old) i (length out.old)).answer }
    ensures out_after { out.new ≡ over (message text.now (length work.old) i (length out.old)).writes out.old }
{
    serduzhap_c::serduzhap_message(text, work, i, out, answer);
}

// Where the name of fault i stands in the text.
#[unsafe(no_mangle)]
pub extern "C" fn serduzhap_name(
    text: &[u8],
    work: &mut [u32],
    i: usize,
    answer: &mut [u32; NAME_ANSWER],
)
    ensures { answer.new ≡ part_answer (name text.now (length work.old) i) }
{
    serduzhap_c::serduzhap_name(text, work, i, answer);
}

// The version of this library.
#[unsafe(no_mangle)]
pub extern "C" fn serduzhap_version(answer: &mut [u32; VERSION_ANSWER])
    ensures { answer.new ≡ version }
{
    serduzhap_c::serduzhap_version(answer);
}
