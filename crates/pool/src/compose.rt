// The texts that a row leads to, composed: its class's from the class's record, its object's from the object's columns.
ghost use Rattle.std.specs.Prelude.{List, ◌≡◌, ℕ, ◌^◌, ◌≤◌, ◌<◌, length, IfSome, IfNone};
ghost use Rattle.base.specs.Output.{Wrote};
ghost use Rattle.scriptblock.specs.Script.{Objects};
ghost use Rattle.meaning.specs.Scan.{Class};
ghost use Rattle.objects.specs.Numbers.{path_no};
ghost use Rattle.objects.specs.Told.{told};
ghost use Rattle.objects.specs.Work.{Stands};
ghost use Rattle.resolve.specs.Classes.{ClassesIn};
ghost use Rattle.pool.specs.Pool.{Stood, TextWrote, NoShort, ClassTable, class_front};

use base::output::put_be32;
use batch::texts::place_len;
use objects::object::{Object, Outer, name_of};
use objects::path::{Path, path_len, put_path};
use resolve::classes::class_len;
use resolve::paths::put_class_path;

// The path of the object with these columns, measured: what `put_path` would tell.
fn measure(b: &[u8], w: &[u8], u: Object, limit: usize) -> Option<Path>
    requires { Stood b.now w.now u × (limit < 2 ^ 32) }
    ensures { (o : Objects) (i : ℕ) → Stands b.now o w.now i u → result ≡ told (path_no limit o i) }
{
    if limit == 0 {
        return None;
    }
    let own = place_len(b, name_of(u));
    match Outer::of(u.outer) {
        Outer::Missing => None,
        Outer::Nothing => Some(Path {
            len: own,
            objects: 1,
        }),
        Outer::Object(i) => {
            let above = path_len(w, i, limit - 1)?;
            Some(Path {
                len: own + 1 + above.len,
                objects: above.objects + 1,
            })
        }
    }
}

// The object's text with its length, where the path is known and takes 252 bytes or fewer: how many bytes.
pub fn compose(out: &mut [u8], b: &[u8], w: &[u8], u: Object, limit: usize) -> Option<usize>
    requires { (256 ≤ length out.old) × Stood b.now w.now u × (limit < 2 ^ 32) }
    ensures few { IfSome result (λ k. k ≤ 256) }
    ensures is { IfSome result (λ k. (o : Objects) (i : ℕ) → Stands b.now o w.now i u → TextWrote (path_no limit o i) out.old out.new k) }
    ensures long { IfNone result ((o : Objects) (i : ℕ) → Stands b.now o w.now i u → NoShort (path_no limit o i)) }
{
    let path = measure(b, w, u, limit)?;
    if 252 < path.len {
        return None;
    }
    put_path(&mut out[4..], b, w, u, limit);
    Some(put_be32(out, path.len as u32) + path.len)
}

// The class's text with its length, where there is a class, whose number is one less, and its path takes 252 bytes or fewer: how many bytes. The table of
// the corpus's classes has n buckets.
pub fn compose_class(out: &mut [u8], c: &[u8], w: &[u8], n: usize, class: usize) -> Option<usize>
    requires { (256 ≤ length out.old) × ClassTable c.now n class w.now }
    ensures few { IfSome result (λ k. k ≤ 256) }
    ensures is { IfSome result (λ k. (xs : List Class) → ClassesIn c.now n xs w.now → class ≤ length xs → Wrote out.old (class_front xs class) out.new k) }
    ensures long { IfNone result ((xs : List Class) → ClassesIn c.now n xs w.now → class ≤ length xs → 256 < length (class_front xs class)) }
{
    let Some(k) = class.checked_sub(1) else {
        return Some(0);
    };
    let len = class_len(w, n, k);
    if 252 < len {
        return None;
    }
    put_class_path(&mut out[4..], c, w, n, k);
    Some(put_be32(out, len as u32) + len)
}
