// Units that take three bytes of UTF-8 each, as most of East Asia's scripts do: names in them are long runs of such, which go two a turn.
ghost use Rattle.std.specs.Prelude.{◌≡◌, true, ◌&&◌, ◌++◌, ◌+◌, ◌≤◌, ◌<◌, length, drop};
ghost use Rattle.base.specs.Number.{le};
ghost use Rattle.base.specs.Output.{Wrote};
ghost use Rattle.text.specs.Units.{units_in};
ghost use Rattle.text.specs.Utf8.{utf8_one};
ghost use Rattle.text.specs.Front.{is_three, starts_three, well_from, bytes_from, Begun};

use super::text::Part;
use super::utf16::is_single;

// How far a text is written: how many bytes, and which unit is next.
#[derive(Clone, Copy)]
pub struct Run {
    pub at: usize,
    pub next: usize,
}

// Whether a unit is a scalar value of three bytes.
fn is_three(u: u32) -> bool
    ensures { result ≡ is_three u }
{
    (0x800 <= u) & is_single(u)
}

// Its bytes as a number, the first counting least.
fn word_of(u: u32) -> u64
    requires { (0x800 ≤ u) × (u < 0x10000) }
    ensures { result ≡ le (utf8_one u) }
{
    let c = u64::from(u);
    0x80_80E0 + c / 4096 + c / 64 % 64 * 256 + c % 64 * 65536
}

// The bytes of two of them, by one word.
fn put_pair(out: &mut [u8], u: u32, v: u32)
    requires { (0x800 ≤ u) × (u < 0x10000) × (0x800 ≤ v) × (v < 0x10000) × (6 ≤ length out.old) }
    ensures { Wrote out.old (utf8_one u ++ utf8_one v) out.new 6 }
{
    let bytes = (word_of(u) + word_of(v) * 0x100_0000).to_le_bytes();
    out[..6].copy_from_slice(&bytes[..6]);
}

// Whether the two units from a place on are such.
fn starts_three(part: Part, i: usize) -> bool
    requires { i ≤ length (units_in part) }
    ensures { result ≡ starts_three (drop i (units_in part.entry)) }
{
    2 <= part.count() - i && is_three(part.unit(i)) & is_three(part.unit(i + 1))
}

// The bytes of the units from a place on as long as two of them are such. One-byte text has none.
// Kept: a `while`, since what follows the loop asks where it ended.
// Kept: that the units from a place on are well-formed and have room is a `requires` of three, here and in name.rt (`put_scalars`, `put_beyond`): of a struct
// each would make the next, as `put_scalars::<false>(&mut out[r.at..], From { part, at: r.next })`.
pub fn put_threes(out: &mut [u8], part: Part, from: usize) -> Run
    requires { (from ≤ length (units_in part)) × (well_from (units_in part) from ≡ true)
        × (length (bytes_from (units_in part) from) ≤ length out.old) }
    ensures { Begun (units_in part.entry) out.old out.new from result.next result.at }
{
    let mut at: usize = 0;
    let mut i = from;
    while starts_three(part, i) {
        put_pair(&mut out[at..], part.unit(i), part.unit(i + 1));
        at += 6;
        i += 2;
    }
    Run { at, next: i }
}
