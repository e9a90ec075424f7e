// A package and its exports from where their names start: what is kept of a name, so that it isn't looked for again.
ghost use Rattle.std.specs.Prelude.{◌≡◌, ◌<◌, None};
ghost use Rattle.batch.specs.Places.{place_at};
ghost use Rattle.packages.specs.Row.{home_in, row_in, outer_start};

use super::block::Block;
use super::rows::Row;
use batch::names::read_head;
use batch::places::{Name, Place};
use batch::reader::u30_le;

// Kept: `row_from` and `home_from` beside `row` and `home`: over closures that find a name they would be
// `row_by(i, kind, |e| self.name_of(e), |u| self.name_of(u))` and `row_by(i, None, |e| named(e, own), |u| named(u, outer))`, and the contract of one would
// speak of both closures.

impl<'a> Block<'a> {
    // Where name i is, whose start is known.
    pub fn place_from(&self, i: usize, start: usize) -> Place
        requires { (i < self.now.parts.names.count) × (start ≡ (place_at self.now.bytes.now self.now.parts.names i).start) }
        ensures { result ≡ place_at self.now.bytes.now self.now.parts.names i }
    {
        Place::at(
            start,
            read_head(self.bytes, self.parts.names.headers + 2 * i),
        )
    }

    // Export i as a row of no kind, from where its name and its outer's start; without an outer, its own start stands for that.
    pub fn row_from(&self, i: usize, own: usize, outer: usize) -> Row
        requires { (i < self.now.parts.count) × (own ≡ (row_in self.now.bytes.now self.now.parts None i).own.place.start)
            × (outer ≡ outer_start (row_in self.now.bytes.now self.now.parts None i)) }
        ensures { result ≡ row_in self.now.bytes.now self.now.parts None i }
    {
        let e = self.export(i);
        let name = Name {
            place: self.place_from(e.index, own),
            number: e.number,
        };
        // Kept: a match: of what the closure of `local(e.outer).map(|k| { .. })` returns the check knew nothing, as in `row_noted`.
        let above = match self.parts.local(e.outer) {
            Some(k) => {
                let u = self.export(k);
                Some(Name {
                    place: self.place_from(u.index, outer),
                    number: u.number,
                })
            }
            None => None,
        };
        Row {
            kind: None,
            own: name,
            outer: above,
            class: e.class,
        }
    }

    // The package's name, from where it starts.
    pub fn home_from(&self, start: usize) -> Name
        requires { start ≡ (home_in self.now.bytes.now self.now.parts).place.start }
        ensures { result ≡ home_in self.now.bytes.now self.now.parts }
    {
        let place = self.place_from(u30_le(self.bytes, 8), start);
        Name {
            place,
            number: base::number::le32(self.bytes, 12),
        }
    }
}
