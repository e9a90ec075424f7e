// The units of the path of a chain, from any place on.
ghost use Rattle.std.specs.Prelude.{List, ◌≡◌, ℕ, ◌+◌, ◌*◌, ◌^◌, ◌≤◌, ◌<◌, length, take, drop};
ghost use Rattle.text.specs.Name.{suffix};
ghost use Rattle.base.specs.NumberLaws.{Bytes};
ghost use Rattle.base.specs.Output.{Wrote};
ghost use Rattle.ids.specs.LoweredUnits.{name_units};
ghost use Rattle.text.specs.Utf16.{unit_bytes};
ghost use Rattle.batch.specs.Holds.{text_at, Holds};
ghost use Rattle.hashes.specs.Chain.{place_no, piece, pieces, chain_units, piece_count, Named, Sized};
ghost use Rattle.hashes.specs.Once.{once};
ghost use Rattle.hashes.specs.Slash.{slash_low, slash_bytes};

use batch::places::Name;
use batch::texts::text_of;
use ids::id;
use text::name::{put_suffix, suffix_len};

// How many units a name brings, with the `/` before it.
fn piece_count(u: Name) -> usize
    requires { u.place.size < 2 ^ 31 }
    ensures { (result ≡ piece_count u.place u.number) × (result < 2 ^ 32) }
{
    let more = 1 + suffix_len(u.number);
    if u.place.wide {
        return u.place.size / 2 + more;
    }
    u.place.size + more
}

// How many units the names of a chain bring, each with the `/` before it. The bytes that the names stand in don't count.
pub fn count_units(chain: &[Name]) -> usize
    requires { (length chain.now ≤ 65) × ((k : ℕ) → k < length chain.now → (place_no chain.now k).size < 2 ^ 31) }
    ensures { ((b : List ℕ) → Bytes b → Named b chain.now → result ≡ length (pieces b chain.now (length chain.now)))
        × (result ≤ length chain.now * 2 ^ 32) }
{
    let mut total: usize = 0;
    for u in chain {
        total += piece_count(*u);
    }
    total
}

// Kept: out, from and n are three parameters, and that so many units are there is a `requires`: a struct of the three would be made anew wherever a
// part of the units goes on, as `put_piece(Window { out: &mut out[2 * (n - left)..], from: past, n: here }, self.names, *u)`.

// The n units of a lowered name from a place on.
fn put_name(out: &mut [u8], s: &[u8], u: Name, from: usize, n: usize) -> usize
    requires { Holds s.now u.place (text_at s.now u.place) × (from + n ≤ length (name_units (text_at s.now u.place) (suffix u.number)))
        × (2 * n ≤ length out.old) }
    ensures { Wrote out.old (unit_bytes (take n (drop from (name_units (text_at s.now u.place) (suffix u.number))))) out.new result }
{
    let mut digits = [0u8; 24];
    let k = put_suffix(&mut digits, u.number);
    let text = text_of(s, u.place);
    let name = id::Name {
        text,
        suffix: &digits[..k],
    };
    id::put_units(out, name, from, n)
}

// The n units of a lowered name and the `/` before it, from a place on.
fn put_piece(out: &mut [u8], s: &[u8], u: Name, from: usize, n: usize) -> usize
    requires { Holds s.now u.place (text_at s.now u.place) × (from + n ≤ length (piece s.now u.place u.number)) × (2 * n ≤ length out.old) }
    ensures { Wrote out.old (unit_bytes (take n (drop from (piece s.now u.place u.number)))) out.new result }
{
    if n == 0 {
        return 0;
    }
    if 0 < from {
        return put_name(out, s, u, from - 1, n);
    }
    out[0] = b'/';
    out[1] = 0;
    2 + put_name(&mut out[2..], s, u, 0, n - 1)
}

// The low byte of a unit with `.` and `:` turned to `/`: 1 more where it is `.`, 11 less where it is `:`, with no branch.
fn slash_low(low: u8, high: u8) -> u8
    ensures { result ≡ slash_low low high }
{
    let ascii = high == 0;
    let dot = low == b'.';
    let colon = low == b':';
    low + u8::from(ascii & dot) - 11 * u8::from(ascii & colon)
}

// Turns `.` and `:` to `/` in the n units in front of a buffer. The loop has no branch but its end, so that the compiler can take many units a
// turn.
fn slash_units(out: &mut [u8], n: usize)
    requires { 2 * n ≤ length out.old }
    ensures { out.new ≡ slash_bytes n out.old }
{
    for i in 0..n {
        out[2 * i] = slash_low(out[2 * i], out[2 * i + 1]);
    }
}

// The path of a chain as units, which stand nowhere: the bytes that the names stand in, the objects, the innermost first, and how many units
// the path has.
#[derive(Clone, Copy)]
pub struct PathUnits<'a> {
    pub names: &'a [u8],
    pub chain: &'a [Name],
    pub count: usize,
    pub ghost sized: { Sized names.now chain.now count } by { Prim.hlevel once },
    pub ghost fits: { Bytes names.now },
}

impl<'a> PathUnits<'a> {
    // Of one object or more.
    pub fn of(names: &'a [u8], chain: &'a [Name]) -> PathUnits<'a>
        requires { Named names.now chain.now × (0 < length chain.now) }
        ensures names { result.names.now ≡ names.now }
        ensures chain { result.chain.now ≡ chain.now }
    {
        PathUnits {
            names,
            chain,
            count: count_units(chain) - 1,
        }
    }

    // The n units that the names bring, from a place on: from the outermost name on, and what lies before the place is passed over.
    fn put_pieces(&self, out: &mut [u8], from: usize, n: usize) -> usize
        requires { (from + n ≤ length (pieces self.now.names.now self.now.chain.now (length self.now.chain.now))) × (2 * n ≤ length out.old) }
        ensures { Wrote out.old (unit_bytes (take n (drop from (pieces self.now.names.now self.now.chain.now (length self.now.chain.now))))) out.new result }
    {
        let mut skip = from;
        let mut left = n;
        for u in self.chain.iter().rev() {
            if left == 0 {
                break;
            }
            let count = piece_count(*u);
            let past = skip.min(count);
            let here = left.min(count - past);
            put_piece(&mut out[2 * (n - left)..], self.names, *u, past, here);
            skip -= past;
            left -= here;
        }
        2 * n
    }

    // The n units of the path from a place on, in UTF-16LE.
    pub fn put(&self, out: &mut [u8], from: usize, n: usize) -> usize
        requires { (from + n ≤ self.now.count) × (2 * n ≤ length out.old) }
        ensures { Wrote out.old (unit_bytes (take n (drop from (chain_units self.now.names.now self.now.chain.now)))) out.new result }
    {
        let size = self.put_pieces(out, from + 1, n);
        slash_units(out, n);
        size
    }
}
