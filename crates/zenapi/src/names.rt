// A package's names: their ids, and what it costs to reach them; their texts are in texts.rt.
ghost use Rattle.std.specs.Prelude.{◌≡◌, take};
ghost use Rattle.zen.specs.Answers.{exports_of};
ghost use Rattle.zenapi.specs.Answers.{package_in, id_answer, ends, ends_answer};

use super::ABSENT;
use batch::notes::Notes;
use zen::access::{Package, export_count};
use zen::zen::NameList;

// The id of imported name i.
#[unsafe(no_mangle)]
pub extern "C" fn zen_imported_id(b: &[u8], i: usize) -> u64
    ensures { result ≡ id_answer (package_in b.now) i }
{
    let Ok(p) = Package::open(b) else {
        return ABSENT;
    };
    if p.layout.imported.count <= i {
        return ABSENT;
    }
    let mut notes = Notes::new();
    p.names(NameList::Imported, &mut notes).imported_id(i)
}

// Where the bases of a package's exports end, added up.
fn names_ends(p: Package) -> u64
    ensures { result ≡ ends (take p.entry.layout.size p.entry.block.now) p.entry.layout.names (exports_of (package_in p.entry.block.now)) }
{
    let mut notes = Notes::new();
    let names = p.names(NameList::Own, &mut notes);
    let mut total: u64 = 0;
    for i in 0..export_count(p.layout) {
        let place = names.place(p.export_at(i).index);
        total += (place.start + place.size) as u64;
    }
    total
}

// The same of any block.
#[unsafe(no_mangle)]
pub extern "C" fn zen_names_ends(b: &[u8]) -> u64
    ensures { result ≡ ends_answer b.now (package_in b.now) }
{
    let Ok(p) = Package::open(b) else {
        return ABSENT;
    };
    names_ends(p)
}
