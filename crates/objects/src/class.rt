// Whether the path of an object is known, and whether it names a class.
ghost use Rattle.std.specs.Prelude.{List, ◌≡◌, ℕ, ◌*◌, ◌<◌, length};
ghost use Rattle.text.specs.Affix.{ends_with};
ghost use Rattle.scriptblock.specs.Script.{Objects, object_name};
ghost use Rattle.meaning.specs.ClassTest.{is_known, names_class};
ghost use Rattle.meaning.specs.Path.{path_of};
ghost use Rattle.meaning.specs.Scan.{class_end};
ghost use Rattle.objects.specs.Numbers.{entry_no, path_no};
ghost use Rattle.objects.specs.Work.{ObjectsIn, Linked, LinkedOf};

use super::link::find;
use super::object::{Outer, object_at, place_of};
use base::number::le32_usize;
use batch::texts::place_ends_with;
use table::entries::record_at;

// Whether the path of object i is known, of at most `limit` objects.
// Kept: a loop beside that of `path_len`: `path_len(w, i, limit).is_some()` asks for a limit below 2^32, since it adds up lengths, and any limit may be given
// here; with `limit.min(w.len() / 56)` there it would have to be proved that no known path has more objects than there are.
pub fn known(w: &[u8], i: usize, limit: usize) -> bool
    requires { Linked w.now × (56 * i < length w.now) }
    ensures { (b : List ℕ) (o : Objects) → ObjectsIn b o w.now → result ≡ is_known (path_no limit o i) }
{
    let buckets = 3 * (w.len() / 56);
    let mut at = i;
    for _ in 0..limit {
        match Outer::of(le32_usize(w, record_at(buckets, 44, at) + 24)) {
            Outer::Missing => return false,
            Outer::Nothing => return true,
            Outer::Object(k) => at = k,
        }
    }
    false
}

// Whether the name of object i ends in `Class`: it has no number, and its base does.
fn ends_in_class(b: &[u8], w: &[u8], i: usize) -> bool
    requires { LinkedOf b.now w.now × (56 * i < length w.now) }
    ensures { (o : Objects) → ObjectsIn b.now o w.now → result ≡ ends_with (object_name o (entry_no o i)) class_end }
{
    let u = object_at(w, i);
    u.number == 0 && place_ends_with(b, place_of(u), b"Class")
}

// Whether the path of the object with a global index is known and names a class.
pub fn is_class(b: &[u8], w: &[u8], index: u64, limit: usize) -> bool
    requires { LinkedOf b.now w.now }
    ensures { (o : Objects) → ObjectsIn b.now o w.now → result ≡ names_class (path_of limit o index) }
{
    let Some(i) = find(w, index) else {
        return false;
    };
    ends_in_class(b, w, i) && known(w, i, limit)
}
