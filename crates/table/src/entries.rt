// A table made, looked up, added to. Entries are numbered from 0; the caller says how many buckets there are, how long a record is,
// and has for its own use what stands from byte 24 of a record on.
ghost use Rattle.std.specs.Prelude.{◌≡◌, ℕ, ◌+◌, ◌*◌, ◌^◌, ◌≤◌, ◌<◌, length, None};
ghost use Rattle.base.specs.OneMore.{one_more};
ghost use Rattle.table.specs.Entries.{find};
ghost use Rattle.table.specs.Table.{record_at, Holds, Linked, Table, cleared, attached, Added};

use super::search::search;
use super::words::{set32, set64};

// Where the record of entry k is.
pub fn record_at(n: usize, stride: usize, k: usize) -> usize
    requires { 4 * n + stride * k < 2 ^ 64 }
    ensures { result ≡ record_at n stride k }
{
    4 * n + stride * k
}

// Makes a table of n buckets with no entry.
// Kept: one call of the library, by the buckets that a table has.
pub fn clear(w: &mut [u8], n: usize)
    requires { 4 * n ≤ length w.old }
    ensures { w.new ≡ cleared n w.old }
{
    w[..4 * n].fill(0);
}

// The number of the entry that has the key: said of all entries that the table holds.
pub fn look_up(w: &[u8], n: usize, stride: usize, lo: u64, hi: u64) -> Option<usize>
    requires { Table n stride w.now }
    ensures { (k : ℕ) (los his : ℕ → ℕ) → Holds n stride k los his w.now → one_more result ≡ find los his lo hi k }
{
    if n == 0 {
        return None;
    }
    search(w, n, stride, lo, hi).entry
}

// Fills the record at a place, and sets a link to it.
fn attach(w: &mut [u8], at: usize, lo: u64, hi: u64, place: usize, link: usize)
    requires { (at + 24 ≤ length w.old) × (place + 4 ≤ length w.old) }
    ensures { w.new ≡ attached at lo hi place link w.old }
{
    set32(w, at, 0);
    set32(w, at + 4, 0);
    set64(w, at + 8, lo);
    set64(w, at + 16, hi);
    set32(w, place, link);
}

// Adds entry k, unless an entry before it has its key: answers as look_up, None where it was added.
pub fn add(w: &mut [u8], n: usize, stride: usize, k: usize, lo: u64, hi: u64) -> Option<usize>
    requires linked { Linked n stride k w.old }
    requires n_nonzero { (0 < n) × (k + 1 < 2 ^ 32) × (record_at n stride (k + 1) ≤ length w.old) }
    ensures found { (los his : ℕ → ℕ) → Holds n stride k los his w.old → one_more result ≡ find los his lo hi k }
    ensures added { result ≡ None → Added n stride k lo hi w.old w.new }
    ensures kept { (result ≡ None → ⊥) → w.new ≡ w.old }
{
    let s = search(w, n, stride, lo, hi);
    if s.entry.is_none() {
        attach(w, record_at(n, stride, k), lo, hi, s.place, k + 1);
    }
    s.entry
}
