// Where the parts of an accepted package are, and what an index means by them.
ghost use Rattle.std.specs.Prelude.{◌≡◌, true, false, MatchOption};
ghost use Rattle.packages.specs.Kinds.{class_code};
ghost use Rattle.packages.specs.Package.{parts_at};
ghost use Rattle.packages.specs.Row.{is_local};
ghost use Rattle.packages.specs.Meaning.{is_import, kind_by};

use base::index::{Kind, import_hash, import_name, index_kind};
use batch::names::Names;
use zen::zen::Layout;

// Where the parts of a package are that rows look at, in its block.
#[derive(Clone, Copy)]
pub struct Parts {
    pub exports: usize,
    pub count: usize,
    pub hashes: usize,
    pub publics: usize,
    pub names: Names,
    pub imported: Names,
}

// What a class index refers to, were it found.
// Kept: no values in it, and index and kind go together: contracts speak of the index (`ref_bytes b index`), so that of `Import { name, hash }` each arm would
// say beside its values that they are those of the index, as `name ≡ import_name index`.
#[derive(Clone, Copy, PartialEq, Eq)]
pub enum ClassKind {
    Script = 0,
    Import = 2,
    Export = 4,
    Null = 6,
    Bad = 7,
}

impl ClassKind {
    // The number of the class kind where it is found.
    pub fn number(self) -> u8
        ensures { result ≡ class_code self }
    {
        self as u8
    }
}

// Those of a layout.
pub fn parts_of(l: Layout) -> Parts
    ensures { result ≡ parts_at l }
{
    let names = l.names;
    let imported = l.imported;
    Parts {
        exports: l.summary.exports,
        count: zen::access::export_count(l),
        hashes: l.summary.hashes,
        publics: zen::access::hash_count(l),
        names,
        imported,
    }
}

impl Parts {
    // Whether an index of kind 2 is that of an imported name and a hash.
    pub fn is_import(&self, index: u64) -> bool
        ensures { result ≡ is_import self.now index }
    {
        import_name(index) < self.imported.count as u64 && import_hash(index) < self.publics as u64
    }

    // Whether an index is that of an export of the package.
    pub fn is_local(&self, index: u64) -> bool
        ensures { result ≡ is_local self.now index }
    {
        index_kind(index) == Kind::Export && index < self.count as u64
    }

    // The number of the export that an index is of, if it is of one of the package.
    pub fn local(&self, index: u64) -> Option<usize>
        ensures { MatchOption result (is_local self.now index ≡ false) (λ k. (is_local self.now index ≡ true) × (k ≡ index)) }
    {
        self.is_local(index).then_some(index as usize)
    }

    // The class kind of an index, were it found.
    pub fn kind_of(&self, index: u64) -> ClassKind
        ensures { class_code result ≡ kind_by self.now index }
    {
        match index_kind(index) {
            Kind::Script => ClassKind::Script,
            Kind::Export if index < self.count as u64 => ClassKind::Export,
            Kind::Import if self.is_import(index) => ClassKind::Import,
            Kind::Export | Kind::Import => ClassKind::Bad,
            Kind::Null => ClassKind::Null,
        }
    }
}
