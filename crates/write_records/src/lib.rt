// Writes what was found to an output: the records of the faults, one after the other.
#![tactic(auto)]

ghost use Rattle.std.specs.Prelude.{◌≡◌, ◌<◌, ◌≤◌, ◌*◌, length};
ghost use Rattle.spec_answers.specs.Answers.{over};
ghost use Rattle.write_records.specs.WriteModel.{records_of};

use report_records::RECORD;

// Writes the records of so many faults.
// Kept: an index, since through `chunks_exact_mut` of a slice a proof learns none of the numbers that are written.
pub fn write_records(text: &[u8], work: &[u32], out: &mut [u32], count: usize)
    requires { 7 * count ≤ length out.old }
    ensures { out.new ≡ over (records_of text.now work.now 0 count) out.old }
{
    for j in 0..count {
        find_faults::numbers_at(text, work, j).put(&mut out[RECORD * j..]);
    }
}
