// Where a search for a key ends.
ghost use Rattle.std.specs.Prelude.{◌≡◌, ◌&&◌, ℕ, ◌+◌, ◌^◌, ◌≤◌, ◌<◌, eqb, length};
ghost use Rattle.base.specs.Number.{le_at};
ghost use Rattle.base.specs.OneMore.{one_more};
ghost use Rattle.table.specs.Tree.{bucket, turn};
ghost use Rattle.table.specs.Table.{Holds, Table, Ended};

// Kept: lo and hi are two parameters: with a struct a call reads `look_up(w, n, stride, Key { lo: 0, hi: index })`. One caller, resolve's `class_at`, has such a
// struct already, and three have not.
// Kept: so are w, n and stride: where entries are added or linked w is written between two calls, so that a struct would be made anew for each. Of n and
// stride alone a call would say `look_up(w, Shape { n, stride: 44 }, lo, hi)`, with a const parameter `look_up::<44>(w, n, lo, hi)`, for `look_up(w, n, 44, lo, hi)`.

use super::entries::record_at;
use base::number::{le32_usize, le64};

// The bucket of a key, of n.
fn bucket_of(n: usize, lo: u64, hi: u64) -> usize
    requires { n < 2 ^ 32 }
    ensures { result ≡ bucket n lo hi }
{
    let x = (hi ^ lo.wrapping_mul(0x9e37_79b9_7f4a_7c15)).wrapping_mul(0x9e37_79b9_7f4a_7c15);
    ((x >> 32) * n as u64 >> 32) as usize
}

// Whether the record at a place has the key.
fn has_key(w: &[u8], at: usize, lo: u64, hi: u64) -> bool
    requires { at + 24 ≤ length w.now }
    ensures { result ≡ (eqb (le_at 8 w.now (at + 8)) lo && eqb (le_at 8 w.now (at + 16)) hi) }
{
    le64(w, at + 8) == lo && le64(w, at + 16) == hi
}

// The side to go to after so many turns, 0 left, 1 right: the bits of hi come first, then those of lo.
// Kept: a number, by which a record's links are counted: with a bool the place reads `at + 4 * usize::from(turn(lo, hi, depth))`.
fn turn(lo: u64, hi: u64, depth: usize) -> usize
    requires { depth < 128 }
    ensures is { result ≡ turn depth lo hi }
    ensures bit { result < 2 }
{
    if depth < 64 {
        (hi >> depth) as usize % 2
    } else {
        (lo >> (depth - 64)) as usize % 2
    }
}

// The entry that the link at a place leads to.
// Kept: in a record a link is the entry's number and 1, and 0 is none, since it has four lent bytes; from here on it is an Option.
fn entry_at(w: &[u8], place: usize) -> Option<usize>
    requires { place + 4 ≤ length w.now }
    ensures { one_more result ≡ le_at 4 w.now place }
{
    le32_usize(w, place).checked_sub(1)
}

// Where a search ends: the place of a link, and the entry that it leads to.
#[derive(Clone, Copy)]
pub struct Spot {
    pub place: usize,
    pub entry: Option<usize>,
}

// Searches for the key, whatever entries the table holds. depth counts the turns, at most 128. The bits of hi come first: the classes of a package
// have one id, lo, and differ in hi alone.
// Kept: depth is counted by hand, since the records say when the search ends: `for depth in 0..128` would want an answer for when all turns were made.
pub fn search(w: &[u8], n: usize, stride: usize, lo: u64, hi: u64) -> Spot
    requires { Table n stride w.now × (0 < n) }
    ensures { (k : ℕ) (los his : ℕ → ℕ) → Holds n stride k los his w.now
        → Ended n stride los his w.now lo hi result.place (one_more result.entry) }
{
    let mut place = 4 * bucket_of(n, lo, hi);
    let mut depth: usize = 0;
    while let Some(i) = entry_at(w, place) {
        let at = record_at(n, stride, i);
        if has_key(w, at, lo, hi) {
            return Spot {
                place,
                entry: Some(i),
            };
        }
        place = at + 4 * turn(lo, hi, depth);
        depth += 1;
    }
    Spot { place, entry: None }
}
