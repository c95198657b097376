// A reader of the lines after the first: turn after turn, it takes what is on top of its agenda.
ghost use Rattle.std.specs.Prelude.{◌≡◌, ◌+◌, ◌-◌, ◌*◌, ◌<◌, ◌≤◌, length};

use crate::{Tree, close, line_due, write_row};
use read_agenda::{Agenda, Due, Entry};
use spec_text::{Refusal, Refused};

// The text, the agenda, which has the work buffer, the offset of the next line, and how many rows are written.
#[derive(Drop)]
pub struct Reader<'t, 'g, 'w> {
    pub text: &'t [u8],
    pub agenda: &'g mut Agenda<'w>,
    pub at: usize,
    pub rows: usize,
    ghost inside: { at ≤ length text.now },
    ghost short: { length text.now ≤ 65536 },
    ghost few: { rows ≤ 4096 },
    ghost due: { agenda.now.top + 8 * (length text.now - at) ≤ 8 * length text.now + 8 },
}

impl<'t, 'g, 'w> Reader<'t, 'g, 'w> {
    ghost use Rattle.std.specs.Prelude.{Ok};
    ghost use Rattle.read_agenda.specs.Entries.{due_word, entry_word};
    ghost use Rattle.read_tree.specs.MachineModel.{taken, turn_by, answer_at};
    ghost use Rattle.read_tree.specs.ReaderModel.{machine_of, IsNext, Moved, Ran};

    // What is on top of the agenda, if anything is due.
    #[tactic(auto, using(crate::proofs::InNumbers::is_next))]
    fn on_top(&self) -> Option<Entry>
        ensures { IsNext (machine_of self.now) result }
    {
        self.agenda.on_top()
    }

    // Takes the next line, which is due by an entry on top.
    #[tactic(auto, using(crate::proofs::InNumbers::taken_due, crate::proofs::Bounds::fresh))]
    fn take_line(&mut self, due: Due) -> Result<(), Refused>
        ensures { Moved self.old (taken self.old.text.now (due_word due) (machine_of self.old)) result self.new }
    {
        let text = self.text;
        let at = self.at;
        let row = self.rows;
        let line = line_due(text, at, due.sort, row + 2, due.levels)?;
        self.at = line.next;
        self.rows += 1;
        let agenda = &mut *self.agenda;
        write_row(text, agenda.work, row, at, line);
        agenda.one_less(due);
        let children = read_words::children_of(
            line.kind,
            line.count0 as usize,
            line.count1 as usize,
            line.count2 as usize,
        );
        agenda.push_due(row, children, due.levels.saturating_sub(1));
        Ok(())
    }

    // One turn, by the entry on top.
    fn step(&mut self, entry: Entry) -> Result<(), Refused>
        ensures { Moved self.old (turn_by self.old.text.now (entry_word entry) (machine_of self.old)) result self.new }
    {
        match entry {
            Entry::Due(due) => self.take_line(due),
            Entry::Close(row) => {
                let rows = self.rows;
                let agenda = &mut *self.agenda;
                close(agenda.work, row, rows);
                agenda.pop();
                Ok(())
            }
        }
    }

    // Turn after turn, until nothing is due.
    #[tactic(auto, unfolding(crate::specs::MachineModel::turn_of))]
    pub fn run(&mut self) -> Result<(), Refused>
        ensures { Ran self.old result self.new }
    {
        while let Some(entry) = self.on_top() {
            self.step(entry)?;
        }
        Ok(())
    }

    // The answer when nothing is due any more: refusal 4 where a line is left.
    pub fn answer(&self, globals: usize) -> Result<Tree, Refused>
        ensures { result ≡ answer_at self.now.text.now globals (Ok (machine_of self.now)) }
    {
        if self.at < self.text.len() {
            return Err(Refused {
                why: Refusal::LineLeft,
                line: self.rows + 2,
            });
        }
        Ok(Tree {
            globals,
            lines: self.rows,
        })
    }
}
