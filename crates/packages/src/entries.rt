// What an accepted package holds, by number, and what an index means in it.
ghost use Rattle.std.specs.Prelude.{◌≡◌, [], ◌+◌, ◌*◌, ◌<◌, get_or};
ghost use Rattle.base.specs.Index.{import_name, import_hash};
ghost use Rattle.ids.specs.Id.{id_of};
ghost use Rattle.batch.specs.Holds.{Holds};
ghost use Rattle.batch.specs.Places.{place_at};
ghost use Rattle.zen.specs.Zen.{no_export, imported_name};
ghost use Rattle.meaning.specs.Reference.{ref_in};
ghost use Rattle.packages.specs.Package.{read_in, package_in};
ghost use Rattle.packages.specs.Row.{home_in, name_in};
ghost use Rattle.packages.specs.Meaning.{keyed, words_of};

use super::block::{Block, Package};
use super::package::ClassKind;
use base::index::{import_hash, import_name};
use batch::notes::NotedNames;
use batch::places::{Name, Place};
use batch::reader::u30_le;
use zen::id::place_id;
use zen::tables::Export;

// What an index means: where hi is not 0, the class with the key (lo, hi); else the script object with index lo, where lo is not 0; else
// nothing.
// Kept: two numbers, as the work buffer has them: an enum made here would be taken apart by `put_words` and `describe`, and made again by `words_at`.
#[derive(Clone, Copy)]
pub struct Words {
    pub lo: u64,
    pub hi: u64,
}

// A key as words.
fn keyed(id: u64, hash: u64) -> Words
    ensures { result ≡ keyed id hash }
{
    if hash == 0 {
        return Words { lo: 0, hi: 0 };
    }
    Words { lo: id, hi: hash }
}

impl<'a> Block<'a> {
    // Kept: a block or package and the number of an export come apart, and that it is one of its exports is a `requires`, in this crate and those above, as with a
    // slice and a place in it: a struct of both would be made anew for each export of a loop, as `Entry { p, i }.candidate()` for `p.candidate(i)`.

    // Export i.
    pub fn export(&self, i: usize) -> Export
        requires { i < self.now.parts.count }
        ensures { result ≡ get_or (read_in self.now.bytes.now).exports i no_export }
    {
        zen::tables::export_in(self.bytes, self.parts.exports + 72 * i)
    }

    // Public hash i.
    pub fn hash(&self, i: usize) -> u64
        requires { i < self.now.parts.publics }
        ensures { result ≡ get_or (read_in self.now.bytes.now).hashes i 0 }
    {
        base::number::le64(self.bytes, self.parts.hashes + 8 * i)
    }

    // The number of imported name i.
    pub fn imported_number(&self, i: usize) -> u32
        requires { i < self.now.parts.imported.count }
        ensures { result ≡ get_or (read_in self.now.bytes.now).numbers i 0 }
    {
        base::number::le32(self.bytes, self.parts.imported.end + 4 * i)
    }

    // Kept: a block and one list of its names, noted, are two parameters, and that they are of that block is a `requires`, here and in rows.rt: a struct of
    // both would be made anew for each call of `Package`, which has its block beside both lists, as `Own { block: &self.block, names: &self.names }.name(i)`.

    // Where name i is, by the noted names.
    pub fn name_noted(&self, names: &NotedNames, i: usize) -> Place
        requires { (names.now.block.now ≡ self.now.bytes.now) × (names.now.names ≡ self.now.parts.names) × (i < self.now.parts.names.count) }
        ensures { (result ≡ place_at self.now.bytes.now self.now.parts.names i)
            × Holds self.now.bytes.now result (get_or (read_in self.now.bytes.now).names i []) }
    {
        names.place(i)
    }

    // Imported name i, by the noted imported ones.
    pub fn imported_noted(&self, imported: &NotedNames, i: usize) -> Name
        requires { (imported.now.block.now ≡ self.now.bytes.now) × (imported.now.names ≡ self.now.parts.imported)
            × (i < self.now.parts.imported.count) }
        ensures { (result.place ≡ place_at self.now.bytes.now self.now.parts.imported i)
            × Holds self.now.bytes.now result.place (get_or (read_in self.now.bytes.now).imported i [])
            × (result.number ≡ get_or (read_in self.now.bytes.now).numbers i 0) }
    {
        Name {
            place: imported.place(i),
            number: self.imported_number(i),
        }
    }

    // The name of an export, by the noted names.
    pub fn name_of_noted(&self, names: &NotedNames, e: Export) -> Name
        requires { (names.now.block.now ≡ self.now.bytes.now) × (names.now.names ≡ self.now.parts.names) × (e.index < self.now.parts.names.count) }
        ensures { (result ≡ name_in self.now.bytes.now self.now.parts e)
            × Holds self.now.bytes.now result.place (get_or (read_in self.now.bytes.now).names e.index []) }
    {
        Name {
            place: self.name_noted(names, e.index),
            number: e.number,
        }
    }

    // The key that a package import means.
    fn import_key(&self, imported: &NotedNames, index: u64) -> Words
        requires { (imported.now.block.now ≡ self.now.bytes.now) × (imported.now.names ≡ self.now.parts.imported)
            × (import_name index < self.now.parts.imported.count) × (import_hash index < self.now.parts.publics) }
        ensures { result ≡ keyed (id_of (imported_name (read_in self.now.bytes.now) (import_name index)))
            (get_or (read_in self.now.bytes.now).hashes (import_hash index) 0) }
    {
        let i = import_name(index) as usize;
        let id = place_id(self.bytes, self.imported_noted(imported, i));
        keyed(id, self.hash(import_hash(index) as usize))
    }

    // What an index means in the package, whose id is `id`, by the noted imported names.
    pub fn meaning_noted(&self, imported: &NotedNames, id: u64, index: u64) -> Words
        requires { (imported.now.block.now ≡ self.now.bytes.now) × (imported.now.names ≡ self.now.parts.imported) }
        ensures { result ≡ words_of (ref_in (package_in id self.now.bytes.now) index) }
    {
        match self.parts.kind_of(index) {
            ClassKind::Script => Words { lo: index, hi: 0 },
            ClassKind::Export => keyed(id, self.export(index as usize).hash),
            ClassKind::Import => self.import_key(imported, index),
            ClassKind::Null | ClassKind::Bad => Words { lo: 0, hi: 0 },
        }
    }

    // Where the package's name is, by the noted names, and its number.
    pub fn home_noted(&self, names: &NotedNames) -> Name
        requires { (names.now.block.now ≡ self.now.bytes.now) × (names.now.names ≡ self.now.parts.names) }
        ensures { result ≡ home_in self.now.bytes.now self.now.parts }
    {
        Name {
            place: names.place(u30_le(self.bytes, 8)),
            number: base::number::le32(self.bytes, 12),
        }
    }
}

impl<'a> Package<'a> {
    // Where name i is.
    pub fn name(&self, i: usize) -> Place
        requires { i < self.now.block.parts.names.count }
        ensures { (result ≡ place_at self.now.block.bytes.now self.now.block.parts.names i)
            × Holds self.now.block.bytes.now result (get_or (read_in self.now.block.bytes.now).names i []) }
    {
        self.block.name_noted(&self.names, i)
    }

    // Imported name i.
    pub fn imported_name(&self, i: usize) -> Name
        requires { i < self.now.block.parts.imported.count }
        ensures { (result.place ≡ place_at self.now.block.bytes.now self.now.block.parts.imported i)
            × Holds self.now.block.bytes.now result.place (get_or (read_in self.now.block.bytes.now).imported i [])
            × (result.number ≡ get_or (read_in self.now.block.bytes.now).numbers i 0) }
    {
        self.block.imported_noted(&self.imported, i)
    }

    // The name of an export.
    pub fn name_of(&self, e: Export) -> Name
        requires { e.index < self.now.block.parts.names.count }
        ensures { (result ≡ name_in self.now.block.bytes.now self.now.block.parts e)
            × Holds self.now.block.bytes.now result.place (get_or (read_in self.now.block.bytes.now).names e.index []) }
    {
        self.block.name_of_noted(&self.names, e)
    }

    // What an index means in the package, whose id is `id`.
    pub fn meaning(&self, id: u64, index: u64) -> Words
        ensures { result ≡ words_of (ref_in (package_in id self.now.block.bytes.now) index) }
    {
        self.block.meaning_noted(&self.imported, id, index)
    }

    // Where the package's name is, and its number.
    pub fn home(&self) -> Name
        ensures { result ≡ home_in self.now.block.bytes.now self.now.block.parts }
    {
        self.block.home_noted(&self.names)
    }
}
