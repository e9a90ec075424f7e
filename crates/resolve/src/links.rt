// Classes linked to their supers' classes, so that a chain looks none of them up again.
ghost use Rattle.std.specs.Prelude.{List, ℕ, ◌+◌, ◌≤◌, ◌<◌, length};
ghost use Rattle.scriptblock.specs.Script.{Objects};
ghost use Rattle.meaning.specs.Reference.{Ref};
ghost use Rattle.meaning.specs.Scan.{Class};
ghost use Rattle.resolve.specs.Rows.{Tables, Kept, SomeClasses, ClassLinked, LinkedTo, SuperOnly};

use super::chain::{LINKED, class_at, words_at};
use table::entries::record_at;
use table::words::set64;

// Links class i, if its super has a class.
fn link_class(w: &mut [u8], n: usize, i: usize)
    requires { SomeClasses n (i + 1) w.old }
    ensures kept { (s b : List ℕ) (o : Objects) (xs : List Class) (refs : List Ref) → Kept s b o n xs refs w.old → i < length xs
        → Kept s b o n xs refs w.new }
    ensures linked { (s b : List ℕ) (o : Objects) (xs : List Class) → Tables s b o n xs w.old → i < length xs
        → ClassLinked n xs i w.old w.new }
    ensures only { SuperOnly n i w.old w.new }
{
    let at = 56 * n + record_at(2 * n, 64, i);
    let m = words_at(w, at + 24);
    if m.hi == 0 {
        return;
    }
    if let Some(k) = class_at(w, n, m) {
        set64(w, at + 24, LINKED + k as u64);
        set64(w, at + 32, 0);
    }
}

// Links the first so many classes.
pub fn link_classes(w: &mut [u8], n: usize, classes: usize)
    requires { SomeClasses n classes w.old }
    ensures kept { (s b : List ℕ) (o : Objects) (xs : List Class) (refs : List Ref) → Kept s b o n xs refs w.old → classes ≤ length xs
        → Kept s b o n xs refs w.new }
    ensures linked { (s b : List ℕ) (o : Objects) (xs : List Class) → Tables s b o n xs w.old → classes ≤ length xs
        → LinkedTo n xs classes w.old w.new }
{
    for i in 0..classes {
        link_class(w, n, i);
    }
}
