// The lines that `namecheck` prints, pushed to an output one after the other, as much as there is room for.
#![tactic(auto)]

ghost use Rattle.std.specs.Prelude.{◌≡◌, [], ◌∷◌, drop, get_or};
ghost use Rattle.spec_answers.specs.Printed.{refused_line};
ghost use Rattle.spec_text.specs.Writing.{decimal_of, line_with};
ghost use Rattle.write_bytes.specs.OutputModel.{Pushed};
ghost use Rattle.print_lines.specs.LinesModel.{record_in, record_line, record_lines};

use read_bytes::NamePart;
use report_messages::Message;
use report_records::{RECORD, RecordNumbers};
use write_bytes::Output;

// A number of the report, and 0 past its end.
// Kept: a line of std, as in work_rows::get and read_bytes::byte_at; one function for all three would convert as well.
fn number_at(numbers: &[u32], i: usize) -> u32
    ensures { result ≡ get_or numbers.now i 0 }
{
    numbers.get(i).copied().unwrap_or(0)
}

// The record that a part of the report begins with; a number that is not there is 0.
// Kept: here, and no From beside `RecordNumbers::put`: only what is printed is read back, and a slice may be shorter.
fn record_of(numbers: &[u32]) -> RecordNumbers
    ensures { result ≡ record_in numbers.now 0 }
{
    RecordNumbers {
        kind: number_at(numbers, 0) as usize,
        start: number_at(numbers, 1),
        end: number_at(numbers, 2),
        name: NamePart {
            offset: number_at(numbers, 3) as usize,
            len: number_at(numbers, 4) as usize,
        },
        class: NamePart {
            offset: number_at(numbers, 5) as usize,
            len: number_at(numbers, 6) as usize,
        },
    }
}

// Pushes a fault's line: kind, start, end, message.
fn push_fault(text: &[u8], output: &mut Output, r: RecordNumbers)
    ensures { Pushed output.old (record_line text.now r) output.new }
{
    output.push(b"fault");
    output.push_number(r.kind);
    output.push_number(r.start as usize);
    output.push_number(r.end as usize);
    output.push_byte(b'\t');
    Message::of_numbers(text, r).push(output);
    output.push_byte(b'\n');
}

// What stands after the record that a part begins with; nothing, where it is shorter.
fn after_record(numbers: &[u32]) -> &[u32]
    ensures { result.now ≡ drop 7 numbers.now }
{
    numbers.get(RECORD..).unwrap_or(&[])
}

// Pushes the lines of so many faults.
// Kept: no `chunks_exact`, which ends with the report: so many lines are promised, also for a report that is shorter.
pub fn push_faults(text: &[u8], report: &[u32], count: usize, output: &mut Output)
    ensures { Pushed output.old (record_lines text.now report.now 0 count) output.new }
{
    let mut rest = report;
    for _ in 0..count {
        push_fault(text, output, record_of(rest));
        rest = after_record(rest);
    }
}

// Pushes the line of a refusal: its number, and what goes with it.
pub fn push_refused(output: &mut Output, number: usize, detail: usize)
    ensures { Pushed output.old (refused_line number detail) output.new }
{
    output.push(b"refused");
    output.push_number(number);
    output.push_number(detail);
    output.push_byte(b'\n');
}

// Pushes the line of the count.
pub fn push_count(output: &mut Output, count: usize)
    ensures { Pushed output.old (line_with "faults" (decimal_of count ∷ [])) output.new }
{
    output.push(b"faults");
    output.push_number(count);
    output.push_byte(b'\n');
}
