// Notes of where the names of a batch start, so that a name is reached by its number without passing over all before it.
ghost use Rattle.std.specs.Prelude.{◌≡◌, ◌<◌, length};
ghost use Rattle.base.specs.NumberLaws.{Bytes};
ghost use Rattle.batch.specs.Places.{name_start, place_at, Held};
ghost use Rattle.batch.specs.Notes.{note_count, no_notes, step_of, Noted};

use super::names::{Names, read_head};
use super::places::{Place, name_start};

// How many notes there are.
pub const NOTES: usize = 16384;

// How many names there are from a note to the next.
fn step_of(count: usize) -> usize
    ensures { result ≡ step_of count }
{
    count / NOTES + 1
}

// Room for notes of where the names of a batch start, which a caller lends, since nothing may be allocated.
#[derive(Drop)]
pub struct Notes {
    pub starts: [u32; NOTES],
    pub ghost full: { length starts ≡ note_count },
}

impl Notes {
    // With nothing noted.
    #[tactic(auto, unfolding(crate::specs::Notes::no_notes))]
    pub fn new() -> Notes
        ensures { result.starts ≡ no_notes }
    {
        Notes { starts: [0; NOTES] }
    }

    // Kept: a block and its batch come apart here: as long as its names aren't noted only these functions ask for `Held`, and a struct of both would stand
    // inside `NotedNames`, as `n.batch.names.count`.

    // Notes where each name starts: for fewer names than notes.
    fn note_each(&mut self, s: &[u8], n: Names)
        requires { Held s.now n × (n.count < note_count) }
        ensures { Noted s.now n self.new.starts }
    {
        let mut p: usize = 0;
        for k in 0..n.count {
            self.starts[k] = p as u32;
            p += read_head(s, n.headers + 2 * k).size;
        }
    }

    // Notes where every step-th name starts.
    fn note_some(&mut self, s: &[u8], n: Names)
        requires { Held s.now n }
        ensures { Noted s.now n self.new.starts }
    {
        let step = step_of(n.count);
        let mut p = n.strings;
        for k in 0..NOTES {
            self.starts[k] = (p - n.strings) as u32;
            let before = step * k;
            if n.count - before < step {
                return;
            }
            p = name_start(s, n.headers + 2 * before, p, step);
        }
    }

    // Notes where the names of a batch start: public for who keeps the notes, since `NotedNames::of` says it of its value alone.
    pub fn note(&mut self, s: &[u8], n: Names)
        requires { Held s.now n }
        ensures { Noted s.now n self.new.starts }
    {
        if n.count < NOTES {
            self.note_each(s, n);
        } else {
            self.note_some(s, n);
        }
    }
}

// A batch in its block, whose names are noted.
#[derive(Clone, Copy)]
pub struct NotedNames<'a> {
    pub block: &'a [u8],
    pub names: Names,
    pub notes: &'a Notes,
    pub ghost held: { Held block.now names },
    pub ghost noted: { Noted block.now names notes.now.starts },
    pub ghost fits: { Bytes block.now },
}

impl<'a> NotedNames<'a> {
    // The batch, once its names are noted. Written out where it is called, as `Package::noted` is, since both hand out a struct that is many words long.
    #[inline(always)]
    pub fn of(block: &'a [u8], names: Names, notes: &'a mut Notes) -> NotedNames<'a>
        requires { Held block.now names }
        ensures { (result.block ≡ block.entry) × (result.names ≡ names) }
    {
        notes.note(block, names);
        NotedNames {
            block,
            names,
            notes,
        }
    }

    // Where name i starts, from the nearest note before it.
    fn start(&self, i: usize) -> usize
        requires { i < self.now.names.count }
        ensures { result ≡ name_start self.now.block.now self.now.names.headers self.now.names.strings i }
    {
        let n = self.names;
        if n.count < NOTES {
            return n.strings + self.notes.starts[i] as usize;
        }
        let step = step_of(n.count);
        let k = i / step;
        let before = step * k;
        name_start(
            self.block,
            n.headers + 2 * before,
            n.strings + self.notes.starts[k] as usize,
            i - before,
        )
    }

    // Where name i is.
    pub fn place(&self, i: usize) -> Place
        requires { i < self.now.names.count }
        ensures { result ≡ place_at self.now.block.now self.now.names i }
    {
        Place::at(
            self.start(i),
            read_head(self.block, self.names.headers + 2 * i),
        )
    }
}
