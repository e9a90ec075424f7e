// Candidates (scan_header), and the names of their rows.
ghost use Rattle.std.specs.Prelude.{◌≡◌, [], ◌+◌, ◌*◌, ◌≤◌, ◌<◌, length, get_or, Some};
ghost use Rattle.text.specs.AffixLaws.{unit_size};
ghost use Rattle.text.specs.Name.{text_bytes};
ghost use Rattle.base.specs.Output.{Wrote};
ghost use Rattle.text.specs.Utf8.{utf8};
ghost use Rattle.meaning.specs.Scan.{candidate_kind};
ghost use Rattle.packages.specs.Kinds.{candidate_number, candidate_of, is_variable};
ghost use Rattle.packages.specs.Package.{read_in};
ghost use Rattle.packages.specs.Row.{export_no, row_in, instance_place, outer_at, names_at, names_size, RowHolds};

use super::block::{Block, Package};
use base::output::put_be32;
use batch::notes::NotedNames;
use batch::places::Name;
use batch::texts::{place_ends_with, place_len, place_starts_with, place_without, put_place_text};

// What makes an export a candidate: its name ends in `_GEN_VARIABLE`, or that of its outer starts with `Default__`.
#[derive(Clone, Copy, PartialEq, Eq)]
pub enum Candidate {
    Variable = 1,
    Subobject = 2,
}

impl Candidate {
    // The number of the kind.
    pub fn number(self) -> u8
        ensures { result ≡ candidate_number (Some self) }
    {
        self as u8
    }

    // The kind with a number, none for any other number.
    // Kept: no TryFrom: a number that is none is no error, so that the one caller would drop it, `Candidate::try_from(mark % 4).ok()`, and its type stand here.
    pub fn of(number: usize) -> Option<Candidate>
        ensures { result ≡ candidate_of number }
    {
        match number {
            1 => Some(Candidate::Variable),
            2 => Some(Candidate::Subobject),
            _ => None,
        }
    }
}

// Kept: a row has no bytes, and that its names stand in b is a `requires`: the definitions make rows of lists (`row_in`), and of a record with a slice in
// it each contract would say field by field what `result ≡ row_in b p kind i` says.
// An export as a candidate: its kind, if it is one; its name; its outer's, if it has one; its class index.
#[derive(Clone, Copy)]
pub struct Row {
    pub kind: Option<Candidate>,
    pub own: Name,
    pub outer: Option<Name>,
    pub class: u64,
}

impl Row {
    // Whether the name without its suffix is the instance: kind 1.
    fn is_variable(&self) -> bool
        ensures { result ≡ is_variable self.now.kind }
    {
        matches!(self.kind, Some(Candidate::Variable))
    }
}

impl<'a> Block<'a> {
    // The kind of candidate that export i is, if it is one, by the noted names.
    pub fn candidate_noted(&self, names: &NotedNames, i: usize) -> Option<Candidate>
        requires { (names.now.block.now ≡ self.now.bytes.now) × (names.now.names ≡ self.now.parts.names) × (i < self.now.parts.count) }
        ensures { candidate_number result ≡ candidate_kind (read_in self.now.bytes.now) (export_no self.now.bytes.now i) }
    {
        let e = self.export(i);
        if place_ends_with(
            self.bytes,
            self.name_noted(names, e.index),
            b"_GEN_VARIABLE",
        ) {
            return Some(Candidate::Variable);
        }
        let u = self.export(self.parts.local(e.outer)?);
        if place_starts_with(self.bytes, self.name_noted(names, u.index), b"Default__") {
            return Some(Candidate::Subobject);
        }
        None
    }

    // Export i as a candidate of a kind, by the noted names.
    pub fn row_noted(&self, names: &NotedNames, i: usize, kind: Option<Candidate>) -> Row
        requires { (names.now.block.now ≡ self.now.bytes.now) × (names.now.names ≡ self.now.parts.names) × (i < self.now.parts.count) }
        ensures { result ≡ row_in self.now.bytes.now self.now.parts kind i }
    {
        let e = self.export(i);
        let own = self.name_of_noted(names, e);
        // Kept: a match: of what the closure of `local(e.outer).map(|k| self.name_of_noted(names, self.export(k)))` returns the check knew nothing, so
        // that it found no proof that the row is `row_in b p kind i`.
        let outer = match self.parts.local(e.outer) {
            Some(k) => Some(self.name_of_noted(names, self.export(k))),
            None => None,
        };
        Row {
            kind,
            own,
            outer,
            class: e.class,
        }
    }
}

impl<'a> Package<'a> {
    // The kind of candidate that export i is, if it is one.
    pub fn candidate(&self, i: usize) -> Option<Candidate>
        requires { i < self.now.block.parts.count }
        ensures { candidate_number result ≡ candidate_kind (read_in self.now.block.bytes.now) (export_no self.now.block.bytes.now i) }
    {
        self.block.candidate_noted(&self.names, i)
    }

    // Export i as a candidate of a kind.
    pub fn row(&self, i: usize, kind: Option<Candidate>) -> Row
        requires { i < self.now.block.parts.count }
        ensures { result ≡ row_in self.now.block.bytes.now self.now.block.parts kind i }
    {
        self.block.row_noted(&self.names, i, kind)
    }
}

// The instance: the name, for kind 1 without the suffix.
fn instance(w: &Row) -> Name
    requires { w.now.kind ≡ Some Candidate.Variable → unit_size w.now.own.place.wide * 13 ≤ w.now.own.place.size }
    ensures { (result.place ≡ instance_place w.now) × (result.number ≡ w.now.own.number) }
{
    if w.is_variable() {
        return Name {
            place: place_without(w.own.place, 13),
            number: w.own.number,
        };
    }
    w.own
}

fn outer_len(b: &[u8], w: &Row) -> usize
    requires { RowHolds b.now w.now }
    ensures { (result ≡ length (utf8 (outer_at b.now w.now))) × (result ≤ 131089) }
{
    w.outer.map_or(0, |u| place_len(b, u))
}

// How many bytes instance, name and outer's name take.
pub fn names_len(b: &[u8], w: &Row) -> usize
    requires { RowHolds b.now w.now }
    ensures { (result ≡ names_size b.now w.now) × (result ≤ 393267) }
{
    let n = place_len(b, w.own);
    let outer = outer_len(b, w);
    if w.is_variable() {
        return n - 13 + n + outer;
    }
    n + n + outer
}

fn put_outer(out: &mut [u8], b: &[u8], w: &Row) -> usize
    requires { RowHolds b.now w.now × (length (text_bytes (outer_at b.now w.now)) ≤ length out.old) }
    ensures { Wrote out.old (text_bytes (outer_at b.now w.now)) out.new result }
{
    match w.outer {
        Some(u) => put_place_text(out, b, u),
        None => put_be32(out, 0),
    }
}

// Instance, name and outer's name, as texts.
pub fn put_names(out: &mut [u8], b: &[u8], w: &Row) -> usize
    requires { RowHolds b.now w.now × (length (names_at b.now w.now) ≤ length out.old) }
    ensures { Wrote out.old (names_at b.now w.now) out.new result }
{
    let first = put_place_text(out, b, instance(w));
    let n = first + put_place_text(&mut out[first..], b, w.own);
    n + put_outer(&mut out[n..], b, w)
}
