// Objects of an accepted script block: by their global index, and where their names are.
ghost use Rattle.std.specs.Prelude.{◌≡◌};
ghost use Rattle.base.specs.OneMore.{one_more};
ghost use Rattle.base.specs.Reading.{run};
ghost use Rattle.batch.specs.Notes.{Noted};
ghost use Rattle.scriptblock.specs.Script.{script};
ghost use Rattle.scriptblock.specs.ScriptAnswers.{entries_of};
ghost use Rattle.scriptblock.specs.Objects.{entry_number};

use super::script::ScriptBlock;
use base::number::le64;
use batch::notes::{NotedNames, Notes};

impl<'a> ScriptBlock<'a> {
    // The number of the entry with a global index, by looking at each.
    pub fn find(&self, global: u64) -> Option<usize>
        ensures { one_more result ≡ entry_number global (entries_of (run script 0 self.now.bytes.now)) }
    {
        for i in 0..self.layout.count {
            if le64(self.bytes, self.layout.entries + 32 * i + 8) == global {
                return Some(i);
            }
        }
        None
    }

    // Notes where its names start, for who keeps the notes.
    pub fn note_object_names(&self, notes: &mut Notes)
        ensures { Noted self.now.bytes.now self.now.layout.names notes.new.starts }
    {
        notes.note(self.bytes, self.layout.names);
    }

    // Its names, noted in the room that is lent: an object's is that of its entry's index.
    pub fn names(&self, notes: &'a mut Notes) -> NotedNames<'a>
        ensures { (result.block ≡ self.now.bytes) × (result.names ≡ self.now.layout.names) }
    {
        NotedNames::of(self.bytes, self.layout.names, notes)
    }
}
