// What an accepted package holds, by number.
ghost use Rattle.std.specs.Prelude.{◌≡◌, ◌<◌, length, get_or, take, Ok, Err, MatchResult};
ghost use Rattle.base.specs.Reading.{run_block};
ghost use Rattle.base.specs.NumberLaws.{Bytes};
ghost use Rattle.base.specs.Refusal.{number};
ghost use Rattle.ids.specs.Id.{id_of};
ghost use Rattle.batch.specs.Places.{place_at};
ghost use Rattle.batch.specs.Notes.{Noted};
ghost use Rattle.zen.specs.Zen.{no_export, package_block};
ghost use Rattle.zen.specs.Answers.{answer, exports_of, hashes_of, numbers_of, imported_name_of, export_count, hash_count};
ghost use Rattle.zen.specs.Lists.{names_in};
ghost use Rattle.zen.specs.declared.zen.NameList.{NameList};

use super::id::place_id;
use super::tables::{Export, export_in};
use super::zen::{Layout, NameList, check_package};
use base::refusal::Refusal;
use batch::notes::{NotedNames, Notes};
use batch::places::{Name, Place};

// A block that passed the check, and where its parts are.
#[derive(Clone, Copy)]
pub struct Package<'a> {
    pub block: &'a [u8],
    pub layout: Layout,
    pub ghost accepted: { answer (run_block package_block block.now) ≡ Ok layout },
    pub ghost bytes: { Bytes block.now },
}

// How many exports and public hashes a package has.
pub fn export_count(l: Layout) -> usize
    ensures { result ≡ export_count l }
{
    l.summary.bundles.saturating_sub(l.summary.exports) / 72
}

pub fn hash_count(l: Layout) -> usize
    ensures { result ≡ hash_count l }
{
    l.summary.imports.saturating_sub(l.summary.hashes) / 8
}

impl<'a> Package<'a> {
    // The package in a block, or the question that it fails.
    pub fn open(block: &'a [u8]) -> Result<Package<'a>, Refusal>
        ensures { MatchResult result (λ p. p.block ≡ block.entry) (λ r. answer (run_block package_block block.entry.now) ≡ Err (number r)) }
    {
        let layout = check_package(block)?;
        Ok(Package { block, layout })
    }

    // The header: what is past its size is not read.
    // Kept: no field beside block and layout, which say it together: clauses would name the field, and a ghost field say of it `take layout.size block`.
    fn header(self) -> &'a [u8]
        ensures { result.now ≡ take self.entry.layout.size self.entry.block.now }
    {
        &self.block[..self.layout.size]
    }

    // The public hash of number i.
    pub fn hash_at(self, i: usize) -> u64
        requires { i < length (hashes_of (run_block package_block self.block.now)) }
        ensures { result ≡ get_or (hashes_of (run_block package_block self.entry.block.now)) i 0 }
    {
        base::number::le64(self.header(), self.layout.summary.hashes + 8 * i)
    }

    // The export of number i.
    pub fn export_at(self, i: usize) -> Export
        requires { i < length (exports_of (run_block package_block self.block.now)) }
        ensures { result ≡ get_or (exports_of (run_block package_block self.entry.block.now)) i no_export }
    {
        export_in(self.header(), self.layout.summary.exports + 72 * i)
    }

    // The instance number of imported name i.
    pub fn imported_number(self, i: usize) -> u32
        requires { i < self.layout.imported.count }
        ensures { result ≡ get_or (numbers_of (run_block package_block self.entry.block.now)) i 0 }
    {
        base::number::le32(self.block, self.layout.imported.end + 4 * i)
    }

    // Notes where its own names start, for who keeps the notes.
    pub fn note_package_names(self, notes: &mut Notes)
        ensures { Noted (take self.entry.layout.size self.entry.block.now) self.entry.layout.names notes.new.starts }
    {
        notes.note(self.header(), self.layout.names);
    }

    // Notes where the imported names start.
    pub fn note_imported_names(self, notes: &mut Notes)
        ensures { Noted (take self.entry.layout.size self.entry.block.now) self.entry.layout.imported notes.new.starts }
    {
        notes.note(self.header(), self.layout.imported);
    }

    // With one of its lists of names, which are noted in the room that is lent.
    pub fn names(self, list: NameList, notes: &'a mut Notes) -> PackageNames<'a>
        ensures { (result.owner.block ≡ self.entry.block) × (result.owner.layout ≡ self.entry.layout) × (result.list ≡ list) }
    {
        let names = NotedNames::of(self.header(), self.layout.names_in(list), notes);
        PackageNames {
            owner: self,
            list,
            names,
        }
    }
}

// A package, and one of its lists of names, noted.
#[derive(Clone, Copy)]
pub struct PackageNames<'a> {
    pub owner: Package<'a>,
    pub list: NameList,
    pub names: NotedNames<'a>,
    pub ghost header: { names.block.now ≡ take owner.layout.size owner.block.now },
    pub ghost listed: { names.names ≡ names_in owner.layout list },
}

impl<'a> PackageNames<'a> {
    // Where name i of the list is.
    pub fn place(&self, i: usize) -> Place
        requires { i < (names_in self.now.owner.layout self.now.list).count }
        ensures { result ≡ place_at (take self.now.owner.layout.size self.now.owner.block.now) (names_in self.now.owner.layout self.now.list) i }
    {
        self.names.place(i)
    }

    // Where the base of the package's name is.
    pub fn package_name_place(&self) -> Place
        requires { self.now.list ≡ NameList.Own }
        ensures { result ≡ place_at (take self.now.owner.layout.size self.now.owner.block.now) self.now.owner.layout.names
            self.now.owner.layout.summary.index }
    {
        self.place(self.owner.layout.summary.index)
    }

    // The id of imported name i.
    pub fn imported_id(&self, i: usize) -> u64
        requires { (self.now.list ≡ NameList.Imported) × (i < self.now.owner.layout.imported.count) }
        ensures { result ≡ id_of (imported_name_of (run_block package_block self.now.owner.block.now) i) }
    {
        let name = Name {
            place: self.place(i),
            number: self.owner.imported_number(i),
        };
        place_id(self.owner.block, name)
    }
}
