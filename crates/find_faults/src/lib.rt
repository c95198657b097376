// Finds the faults of a text: reads its tree, walks it, and lists the faults in the work buffer.
#![tactic(auto)]

ghost use Rattle.std.specs.Prelude.{◌≡◌, ◌<◌, length};
ghost use Rattle.spec_text.specs.Reading.{reading};
ghost use Rattle.report_order.specs.OrderModel.{entry_at};
ghost use Rattle.report_records.specs.RecordsModel.{record_of, record_by};
ghost use Rattle.find_faults.specs.Found.{Finds};

use report_records::{Record, RecordNumbers};
use spec_text::Refused;

// Reads the tree, walks it, and lists its faults in the work buffer. Hands back how many there are. Where no row has a
// fault the pass that lists them is left out.
// Kept: text and work by themselves, here and below: C lends two buffers, of which one is read and one is written.
pub fn find(text: &[u8], work: &mut [u32]) -> Result<usize, Refused>
    ensures { Finds text.now (reading text.now (length work.old)) work.new result }
{
    let tree = read_tree::read_tree(text, work)?;
    walk_tree::walk(text, work, tree.globals, tree.lines);
    if !report_order::any_fault(work, tree.globals, tree.lines) {
        return Ok(0);
    }
    Ok(report_order::list_faults(work, tree.globals, tree.lines))
}

// The numbers of fault j's record.
pub fn numbers_at(text: &[u8], work: &[u32], j: usize) -> RecordNumbers
    ensures { result ≡ record_of text.now work.now (entry_at work.now j) }
{
    report_records::record_of(text, work, report_order::entry_at(work, j))
}

// The record of fault j.
pub fn record_at(text: &[u8], work: &[u32], j: usize) -> Record
    ensures { result ≡ record_by (record_of text.now work.now (entry_at work.now j)) }
{
    numbers_at(text, work, j).record()
}
