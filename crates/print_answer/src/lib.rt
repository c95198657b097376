// What `namecheck` prints, as bytes in a buffer: the only thing left to the program is to read and to write.
#![tactic(auto)]

ghost use Rattle.spec_answers.specs.Printed.{printed, Prints};
ghost use Rattle.write_bytes.specs.OutputModel.{Pushed};

use write_bytes::Output;

// The numbers of the report buffer and of the work buffer.
pub const REPORT: usize = 16384;

pub const WORK: usize = 16384;

// Pushes what `namecheck` prints for a text.
fn push_printed(
    text: &[u8],
    work: &mut [u32; WORK],
    report: &mut [u32; REPORT],
    output: &mut Output,
)
    ensures { Pushed output.old (printed text.now) output.new }
{
    match serduzhap::report(text, work, report) {
        Ok(count) => {
            print_lines::push_faults(text, report, count, output);
            print_lines::push_count(output, count);
        }
        Err(error) => print_lines::push_refused(output, error.number(), error.detail()),
    }
}

// Writes what `namecheck` prints for a text, as much as there is room for, and answers how many bytes.
// Kept: a length, since what `written` hands back is lent by the Output, which ends here.
#[tactic(auto, using(crate::proofs::Reported::prints))]
pub fn print(
    text: &[u8],
    work: &mut [u32; WORK],
    report: &mut [u32; REPORT],
    out: &mut [u8],
) -> usize
    ensures { Prints text.now out.old out.new result }
{
    let mut output = Output::new(out);
    push_printed(text, work, report, &mut output);
    output.len()
}
