// Objects found by their global index, and linked to their outers.
ghost use Rattle.std.specs.Prelude.{List, ◌≡◌, ℕ, ◌^◌, ◌<◌, length};
ghost use Rattle.base.specs.OneMore.{one_more};
ghost use Rattle.base.specs.Reading.{run, gives};
ghost use Rattle.scriptblock.specs.Script.{Objects, script};
ghost use Rattle.objects.specs.Numbers.{number_of, link_of};
ghost use Rattle.objects.specs.Work.{Entered, AllIn, ObjectsIn, Keyed};

use base::index::{Kind, index_kind};
use base::number::le64;
use scriptblock::script::ScriptBlock;
use table::entries::{look_up, record_at};
use table::words::set32;

// The number of the object with a global index.
pub fn find(w: &[u8], index: u64) -> Option<usize>
    requires { Keyed w.now }
    ensures { (b : List ℕ) (o : Objects) → AllIn b o w.now → one_more result ≡ number_of o.entries index }
{
    look_up(w, 3 * (w.len() / 56), 44, 0, index)
}

// Where an outer leads: 0 to no object, 1 to none at all, else two more than the object's number.
// Kept: the number as it stands in the work buffer: an Outer would be made and taken apart, as `set32(w, at, outer_of(w, x).link())`.
fn link_of(w: &[u8], outer: u64) -> usize
    requires { Keyed w.now }
    ensures { (b : List ℕ) (o : Objects) → AllIn b o w.now → result ≡ link_of o outer }
{
    if index_kind(outer) == Kind::Null {
        return 1;
    }
    find(w, outer).map_or(0, |i| i + 2)
}

// Links each object of an accepted block to its outer.
pub fn link(s: &ScriptBlock, w: &mut [u8])
    requires { Entered s.now.bytes.now s.now.layout s.now.layout.count w.old × (length s.now.bytes.now < 2 ^ 32) }
    ensures { (o : Objects) → run script 0 s.now.bytes.now ≡ gives o → ObjectsIn s.now.bytes.now o w.new }
{
    let n = s.layout.count;
    for i in 0..n {
        let k = link_of(w, le64(s.bytes, s.layout.entries + 32 * i + 16));
        set32(w, record_at(3 * n, 44, i) + 24, k);
    }
}
