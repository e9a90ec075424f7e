// Where a reference leads: its class, and the script object at the end of its chain.
ghost use Rattle.std.specs.Prelude.{List, ◌≡◌, ℕ, ◌+◌, ◌≤◌, ◌<◌, length};
ghost use Rattle.base.specs.Number.{le_at};
ghost use Rattle.base.specs.OneMore.{one_more};
ghost use Rattle.base.specs.Seek.{seek};
ghost use Rattle.scriptblock.specs.Script.{Objects};
ghost use Rattle.meaning.specs.Key.{public, same_key};
ghost use Rattle.meaning.specs.Reference.{Ref};
ghost use Rattle.meaning.specs.Scan.{Class};
ghost use Rattle.resolve.specs.Rows.{class_number, object_number, Means, Keeps, Tables, SomeTables, SomeClasses, Leads};

use base::number::le64;
use objects::link::find;
use packages::entries::Words;
use table::entries::{look_up, record_at};

// What is added to the number of a class that is linked.
pub const LINKED: u64 = 9223372036854775808;

// Kept: the work buffer and how many script objects it has are two parameters, and what it holds is a `requires`: it is written between one row and the
// next, so that a struct would be made anew for each, as `target_of(Tables { work: &*w, n }, m, lookups)`.

// The words that are kept from a place on.
pub fn words_at(w: &[u8], at: usize) -> Words
    requires { at + 16 ≤ length w.now }
    ensures { (result.lo ≡ le_at 8 w.now at) × (result.hi ≡ le_at 8 w.now (at + 8)) }
{
    Words {
        lo: le64(w, at),
        hi: le64(w, at + 8),
    }
}

// The class that has a key.
pub fn class_at(w: &[u8], n: usize, key: Words) -> Option<usize>
    requires { SomeTables n w.now × (0 < key.hi) }
    ensures { (s b : List ℕ) (o : Objects) (xs : List Class) → Tables s b o n xs w.now
        → one_more result ≡ seek (λ (c : Class). same_key c.key (public key.lo key.hi)) xs }
{
    let size = 56 * n;
    look_up(&w[size..], 2 * n, 64, key.lo, key.hi)
}

// The class of what a record keeps: linked, or looked up.
// Kept: words are read as numbers: `words_at` would make an enum of the two by the same tests that `class_of` and `end_of` make, and each would take it
// apart, as said at `Words`.
fn class_of(w: &[u8], n: usize, m: Words) -> Option<usize>
    requires { SomeTables n w.now }
    ensures { (s b : List ℕ) (o : Objects) (xs : List Class) (r : Ref) → Tables s b o n xs w.now → Keeps xs m.lo m.hi r
        → one_more result ≡ class_number xs r }
{
    if m.hi != 0 {
        return class_at(w, n, m);
    }
    if m.lo < LINKED {
        return None;
    }
    Some((m.lo - LINKED) as usize)
}

// The script object to which the chain of so many lookups leads from what is kept, whose class is told.
fn end_of(w: &[u8], n: usize, class: Option<usize>, kept: Words, lookups: usize) -> Option<usize>
    requires { SomeClasses n (one_more class) w.now }
    ensures { (s b : List ℕ) (o : Objects) (xs : List Class) (r : Ref) → Tables s b o n xs w.now → Keeps xs kept.lo kept.hi r
        → one_more class ≡ class_number xs r → one_more result ≡ object_number lookups xs o r }
{
    let size = 56 * n;
    let mut next = class;
    let mut m = kept;
    for _ in 0..lookups {
        let Some(k) = next else {
            break;
        };
        m = words_at(w, size + record_at(2 * n, 64, k) + 24);
        next = class_of(w, n, m);
    }
    if next.is_some() || m.hi != 0 || m.lo == 0 {
        return None;
    }
    find(&w[..size], m.lo)
}

// Where a row leads: its class, and the script object at the end of its chain.
#[derive(Clone, Copy)]
pub struct Target {
    pub class: Option<usize>,
    pub object: Option<usize>,
}

pub fn target_of(w: &[u8], n: usize, m: Words, lookups: usize) -> Target
    requires { SomeTables n w.now }
    ensures { (s b : List ℕ) (o : Objects) (xs : List Class) (r : Ref) → Tables s b o n xs w.now → Means m.lo m.hi r
        → Leads xs o lookups r (one_more result.class) (one_more result.object) }
{
    let class = if m.hi == 0 { None } else { class_at(w, n, m) };
    Target {
        class,
        object: end_of(w, n, class, m, lookups),
    }
}
