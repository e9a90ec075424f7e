// An object by its columns.
ghost use Rattle.std.specs.Prelude.{true, false, List, ◌≡◌, ℕ, ◌+◌, ◌*◌, ◌≤◌, ◌<◌, length};
ghost use Rattle.scriptblock.specs.Script.{Objects};
ghost use Rattle.objects.specs.Work.{ObjectsIn, Linked, object_no, columns_at, outer_number, place_of};

// Kept: the work buffer goes with the fact Linked, and no struct holds both, here and above: it is a part of the caller's buffer, which is written between two
// calls, so that the struct would be made anew for each, as `is_class(s.block, Objects { w: &w[..size] }, e, s.limit)`.

use base::number::{le32, le32_usize};
use batch::places::{Name, Place};
use table::entries::record_at;

// Where the outer of an object leads: to no object of the block, to none at all, or to the object with a number.
#[derive(Clone, Copy, PartialEq, Eq)]
pub enum Outer {
    Missing,
    Nothing,
    Object(usize),
}

impl Outer {
    // Kept: no From, here, in `place_of` and in `name_of`: `Outer::from(link)` would say no more, and a number is no outer by itself.
    // By the number that stands for it in the work buffer: 0, 1, or two more than the object's number.
    pub fn of(link: usize) -> Outer
        ensures { outer_number result ≡ link }
    {
        match link {
            0 => Outer::Missing,
            1 => Outer::Nothing,
            k => Outer::Object(k - 2),
        }
    }
}

// An object's columns: the number of where its outer leads, its name's start, twice the name's size and 1 if it is UTF-16, its instance number.
// Kept: numbers as they stand in the work buffer, which rows copy from it and compare; Outer::of, place_of, name_of and is_missing read them.
#[derive(Clone, Copy, PartialEq, Eq)]
pub struct Object {
    pub outer: usize,
    pub start: usize,
    pub size: usize,
    pub number: u32,
}

impl Object {
    // Whether the outer is missing, as of columns that are all 0 where there is no object.
    pub fn is_missing(self) -> bool
        ensures { (result ≡ true → self.outer ≡ 0) × (result ≡ false → self.outer ≡ 0 → ⊥) }
    {
        matches!(Outer::of(self.outer), Outer::Missing)
    }
}

// Object i.
pub fn object_at(w: &[u8], i: usize) -> Object
    requires { Linked w.now × (56 * i < length w.now) }
    ensures { (b : List ℕ) (o : Objects) → ObjectsIn b o w.now → result ≡ object_no b o i }
{
    columns_at(w, record_at(3 * (w.len() / 56), 44, i) + 24)
}

// The columns that stand from a place on.
pub fn columns_at(w: &[u8], at: usize) -> Object
    requires { at + 16 ≤ length w.now }
    ensures { result ≡ columns_at w.now at }
{
    Object {
        outer: le32_usize(w, at),
        start: le32_usize(w, at + 4),
        size: le32_usize(w, at + 8),
        number: le32(w, at + 12),
    }
}

// The place of an object's name.
pub fn place_of(u: Object) -> Place
    ensures { result ≡ place_of u }
{
    Place {
        start: u.start,
        size: u.size / 2,
        wide: u.size % 2 == 1,
    }
}

// Its name.
pub fn name_of(u: Object) -> Name
    ensures { result ≡ record { place = place_of u; number = u.number } }
{
    Name {
        place: place_of(u),
        number: u.number,
    }
}
