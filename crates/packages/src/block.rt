// An accepted package: its block, where its parts are, and notes of where its names start.
ghost use Rattle.std.specs.Prelude.{◌≡◌};
ghost use Rattle.base.specs.NumberLaws.{Bytes};
ghost use Rattle.base.specs.Reading.{gives, run_block};
ghost use Rattle.batch.specs.Notes.{no_notes};
ghost use Rattle.zen.specs.Zen.{package_block};
ghost use Rattle.packages.specs.Package.{read_in, PackageIn};

use super::package::{Parts, parts_of};
use batch::notes::{NotedNames, Notes};
use zen::layout::layout_of;

// The block of an accepted package, and where its parts are.
#[derive(Clone, Copy)]
pub struct Block<'a> {
    pub bytes: &'a [u8],
    pub parts: Parts,
    pub ghost accepted: { PackageIn bytes.now parts },
    pub ghost fits: { Bytes bytes.now },
}

impl<'a> Block<'a> {
    // A block that is known to be accepted.
    pub fn of(bytes: &'a [u8]) -> Block<'a>
        requires { run_block package_block bytes.now ≡ gives (read_in bytes.now) }
        ensures { result.bytes ≡ bytes.entry }
    {
        Block {
            bytes,
            parts: parts_of(layout_of(bytes)),
        }
    }
}

// Room for notes of where the names of a package start, which a caller lends, since nothing may be allocated.
#[derive(Drop)]
pub struct PackageNotes {
    pub names: Notes,
    pub imported: Notes,
}

impl PackageNotes {
    // With nothing noted.
    pub fn new() -> PackageNotes
        ensures { (result.names.starts ≡ no_notes) × (result.imported.starts ≡ no_notes) }
    {
        PackageNotes {
            names: Notes::new(),
            imported: Notes::new(),
        }
    }
}

// The block with its names noted, those of its own batch and the imported ones.
#[derive(Clone, Copy)]
pub struct Package<'a> {
    pub block: Block<'a>,
    pub names: NotedNames<'a>,
    pub imported: NotedNames<'a>,
    pub ghost own: { (names.block.now ≡ block.bytes.now) × (names.names ≡ block.parts.names) },
    pub ghost others: { (imported.block.now ≡ block.bytes.now) × (imported.names ≡ block.parts.imported) },
}

impl<'a> Package<'a> {
    // The block of an accepted package, whose names are noted in the room that is lent. Written out where it is called: else tiny packages take a seventh more.
    #[inline(always)]
    pub fn noted(block: Block<'a>, notes: &'a mut PackageNotes) -> Package<'a>
        ensures { result.block ≡ block.entry }
    {
        Package {
            block,
            names: NotedNames::of(block.bytes, block.parts.names, &mut notes.names),
            imported: NotedNames::of(block.bytes, block.parts.imported, &mut notes.imported),
        }
    }
}
