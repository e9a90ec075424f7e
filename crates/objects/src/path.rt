// The path of an object, measured and written.
ghost use Rattle.std.specs.Prelude.{List, [], ◌∷◌, ◌++◌, ◌≡◌, ℕ, ◌*◌, ◌^◌, ◌≤◌, ◌<◌, length};
ghost use Rattle.base.specs.Output.{Wrote};
ghost use Rattle.text.specs.Utf8.{utf8};
ghost use Rattle.batch.specs.Holds.{text_at, name_at, Holds};
ghost use Rattle.scriptblock.specs.Script.{Objects};
ghost use Rattle.meaning.specs.Path.{separator};
ghost use Rattle.objects.specs.Numbers.{path_no};
ghost use Rattle.objects.specs.Work.{ObjectsIn, Linked, place_of, Stands};
ghost use Rattle.objects.specs.Told.{told, path_bytes, Written, Roomy};
ghost use Rattle.objects.specs.PutLaws.{OuterRead, TwoRoom};

use super::object::{Object, Outer, name_of, object_at};
use base::number::le32_usize;
use batch::texts::put_place;
use table::entries::record_at;

// A path: how many bytes, of how many objects.
#[derive(Clone, Copy, PartialEq, Eq)]
pub struct Path {
    pub len: usize,
    pub objects: usize,
}

// Kept: the limit is a usize, and that it is below 2^32 a `requires`, here and in pool's compose.rt: limits are usize in all that calls, so that a u32 would be cast
// there, as `path_len(&w[..size], i, m.objects as u32)`.
// The path of object i, of at most `limit` objects, measured; None where it is unknown.
pub fn path_len(w: &[u8], i: usize, limit: usize) -> Option<Path>
    requires { Linked w.now × (56 * i < length w.now) × (limit < 2 ^ 32) }
    ensures { (b : List ℕ) (o : Objects) → ObjectsIn b o w.now → result ≡ told (path_no limit o i) }
{
    let buckets = 3 * (w.len() / 56);
    let mut len: usize = 0;
    let mut at = i;
    for depth in 0..limit {
        let record = record_at(buckets, 44, at);
        len += le32_usize(w, record + 40);
        match Outer::of(le32_usize(w, record + 24)) {
            Outer::Missing => return None,
            Outer::Nothing => {
                return Some(Path {
                    len,
                    objects: depth + 1,
                });
            }
            Outer::Object(k) => {
                len += 1;
                at = k;
            }
        }
    }
    None
}

// The name of an object.
fn put_name(out: &mut [u8], b: &[u8], u: Object) -> usize
    requires { Holds b.now (place_of u) (text_at b.now (place_of u)) × (length (utf8 (name_at b.now (place_of u) u.number)) ≤ length out.old) }
    ensures { Wrote out.old (utf8 (name_at b.now (place_of u) u.number)) out.new result }
{
    put_place(out, b, name_of(u))
}

// What stands before a name behind so many others.
fn separator_of(depth: usize) -> u8
    requires { 0 < depth }
    ensures { result ∷ [] ≡ separator depth }
{
    if depth == 2 { b':' } else { b'.' }
}

// The name of an object that stands behind so many others, with its separator.
fn put_next(out: &mut [u8], b: &[u8], u: Object, depth: usize) -> usize
    requires holds { Holds b.now (place_of u) (text_at b.now (place_of u)) × (0 < depth) }
    requires number_in_bounds { length (utf8 (separator depth ++ name_at b.now (place_of u) u.number)) ≤ length out.old }
    ensures { Wrote out.old (utf8 (separator depth ++ name_at b.now (place_of u) u.number)) out.new result }
{
    out[0] = separator_of(depth);
    let n = put_name(&mut out[1..], b, u);
    1 + n
}

// The path of an object whose outer, with the columns v, is the outermost object.
fn put_two(out: &mut [u8], b: &[u8], u: Object, v: Object, limit: usize) -> Option<Path>
    requires { TwoRoom b.now u v limit out.old }
    ensures { (o : Objects) (w : List ℕ) (i : ℕ) → Stands b.now o w i u → OuterRead w u v limit
        → length (path_bytes (path_no limit o i)) ≤ length out.old → Written (path_no limit o i) out.old out.new result }
{
    if limit == 1 {
        return None;
    }
    let at = put_name(out, b, v);
    let n = put_next(&mut out[at..], b, u, 1);
    Some(Path {
        len: at + n,
        objects: 2,
    })
}

// The path of an object, from the innermost object on: each name is written after its outer's path. Nothing is written where it is unknown.
pub fn put_path(out: &mut [u8], b: &[u8], w: &[u8], u: Object, limit: usize) -> Option<Path>
    requires { Roomy b.now w.now u limit out.old }
    ensures { (o : Objects) (i : ℕ) → Stands b.now o w.now i u → length (path_bytes (path_no limit o i)) ≤ length out.old
        → Written (path_no limit o i) out.old out.new result }
{
    if limit == 0 {
        return None;
    }
    match Outer::of(u.outer) {
        Outer::Missing => None,
        Outer::Nothing => {
            let len = put_name(out, b, u);
            Some(Path { len, objects: 1 })
        }
        Outer::Object(i) => {
            let v = object_at(w, i);
            if Outer::of(v.outer) == Outer::Nothing {
                return put_two(out, b, u, v, limit);
            }
            let above = put_path(out, b, w, v, limit - 1)?;
            let n = put_next(&mut out[above.len..], b, u, above.objects);
            Some(Path {
                len: above.len + n,
                objects: above.objects + 1,
            })
        }
    }
}
