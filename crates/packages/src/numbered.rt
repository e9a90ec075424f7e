// Rows that say their kind by a number: 1 and 2 as in a report, any other for none.
ghost use Rattle.std.specs.Prelude.{◌≡◌, ◌≤◌, ◌<◌, length};
ghost use Rattle.base.specs.Output.{Wrote};
ghost use Rattle.batch.specs.Holds.{Holds};
ghost use Rattle.packages.specs.ClassPath.{path_bytes};
ghost use Rattle.packages.specs.Numbered.{kind_row, numbered_in};
ghost use Rattle.packages.specs.Row.{base_at, names_at, names_size, RowHolds};

use super::block::Block;
use super::class_path::{class_path_len, put_class_path};
use super::rows::{Candidate, Row, names_len, put_names};
use batch::notes::NotedNames;
use batch::places::Name;

// An export as a candidate: its kind by a number, whichever it is; its name; its outer's, if it has one; its class index.
#[derive(Clone, Copy)]
pub struct NumberedRow {
    pub kind: u8,
    pub own: Name,
    pub outer: Option<Name>,
    pub class: u64,
}

impl NumberedRow {
    // The row of the kind with that number.
    pub fn row(&self) -> Row
        ensures { result ≡ kind_row self.now }
    {
        Row {
            kind: Candidate::of(usize::from(self.kind)),
            own: self.own,
            outer: self.outer,
            class: self.class,
        }
    }

    // How many bytes instance, name and outer's name take.
    pub fn names_len(&self, b: &[u8]) -> usize
        requires { RowHolds b.now (kind_row self.now) }
        ensures { (result ≡ names_size b.now (kind_row self.now)) × (result ≤ 393267) }
    {
        names_len(b, &self.row())
    }

    // Instance, name and outer's name, as texts.
    pub fn put_names(&self, out: &mut [u8], b: &[u8]) -> usize
        requires { RowHolds b.now (kind_row self.now) × (length (names_at b.now (kind_row self.now)) ≤ length out.old) }
        ensures { Wrote out.old (names_at b.now (kind_row self.now)) out.new result }
    {
        put_names(out, b, &self.row())
    }

    // How many bytes the path takes, were the export a class.
    pub fn class_path_len(&self, b: &[u8], home: Name) -> usize
        requires { Holds b.now home.place (base_at b.now home) × RowHolds b.now (kind_row self.now) }
        ensures { (result ≡ length (path_bytes b.now home (kind_row self.now))) × (result ≤ 393269) }
    {
        class_path_len(b, home, &self.row())
    }

    // That path.
    pub fn put_class_path(&self, out: &mut [u8], b: &[u8], home: Name) -> usize
        requires { Holds b.now home.place (base_at b.now home) × RowHolds b.now (kind_row self.now) × (length (path_bytes b.now home (kind_row self.now)) ≤ length out.old) }
        ensures { Wrote out.old (path_bytes b.now home (kind_row self.now)) out.new result }
    {
        put_class_path(out, b, home, &self.row())
    }
}

impl<'a> Block<'a> {
    // Export i as a row of any number, by the noted names.
    pub fn row_numbered(&self, names: &NotedNames, i: usize, kind: u8) -> NumberedRow
        requires { (names.now.block.now ≡ self.now.bytes.now) × (names.now.names ≡ self.now.parts.names) × (i < self.now.parts.count) }
        ensures { result ≡ numbered_in self.now.bytes.now self.now.parts kind i }
    {
        let w = self.row_noted(names, i, Candidate::of(usize::from(kind)));
        NumberedRow {
            kind,
            own: w.own,
            outer: w.outer,
            class: w.class,
        }
    }
}
