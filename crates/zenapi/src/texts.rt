// A package's names in UTF-8: bases (which = 0) and imported names, rendered (which = 1).
ghost use Rattle.std.specs.Prelude.{◌≡◌, ◌≤◌, ◌<◌, length, take, MatchOption};
ghost use Rattle.batch.specs.Places.{place_at};
ghost use Rattle.zen.specs.Lists.{names_in};
ghost use Rattle.zenapi.specs.Answers.{package_in};
ghost use Rattle.zenapi.specs.Texts.{Stands, text_answer, text_after};

use super::ABSENT;
use batch::notes::Notes;
use batch::places::{Name, Place};
use batch::texts::{place_len, put_place};
use zen::access::Package;
use zen::zen::NameList;

// Where name i of a list is, if it has so many. Written out where it is called: else the package is copied to it, by a call of the C library's memcpy.
#[inline(always)]
fn find_name(p: Package, list: NameList, i: usize) -> Option<Place>
    ensures { MatchOption result ((names_in p.entry.layout list).count ≤ i)
        (λ q. (i < (names_in p.entry.layout list).count) × (q ≡ place_at (take p.entry.layout.size p.entry.block.now) (names_in p.entry.layout list) i)) }
{
    if p.layout.names_in(list).count <= i {
        return None;
    }
    let mut notes = Notes::new();
    Some(p.names(list, &mut notes).place(i))
}

// Where text i's base is, and its instance number, if it is there.
fn find_text(b: &[u8], which: u32, i: usize) -> Option<Name>
    ensures { Stands b.now which i result }
{
    let Ok(p) = Package::open(b) else {
        return None;
    };
    match which {
        0 => Some(Name {
            place: find_name(p, NameList::Own, i)?,
            number: 0,
        }),
        1 => Some(Name {
            place: find_name(p, NameList::Imported, i)?,
            number: p.imported_number(i),
        }),
        _ => None,
    }
}

// Text i at the front of the buffer, and its length; where it is not there or has no room, the buffer as it was.
#[unsafe(no_mangle)]
pub extern "C" fn zen_put_name(out: &mut [u8], b: &[u8], which: u32, i: usize) -> u64
    ensures { (result ≡ text_answer (length out.old) (package_in b.now) which i)
        × (out.new ≡ text_after out.old (package_in b.now) which i) }
{
    let Some(name) = find_text(b, which, i) else {
        return ABSENT;
    };
    if out.len() < place_len(b, name) {
        return ABSENT;
    }
    put_place(out, b, name) as u64
}
