// The ASCII units in front of a text: names beyond ASCII are mostly ASCII, in stretches, which go eight units a turn.
ghost use Rattle.std.specs.Prelude.{◌≡◌, true, ◌+◌, ◌%◌, ◌≤◌, ◌<◌, length, get_or, take, drop};
ghost use Rattle.base.specs.Output.{Wrote};
ghost use Rattle.text.specs.Units.{units_of, units_in};
ghost use Rattle.text.specs.Front.{ascii_front, lows};

use super::text::Part;
use base::number::le64;

// The low byte of unit i.
// Kept: a remainder, since a cast has to fit: `part.unit(i).to_le_bytes()[0]` makes four bytes of which one counts.
fn low(part: Part, i: usize) -> u8
    requires { i < length (units_in part) }
    ensures { result ≡ get_or (units_in part.entry) i 0 % 256 }
{
    (part.unit(i) % 256) as u8
}

// The low bytes of the eight units from a place on: all are read before one is written, so that they go as one word.
#[tactic(auto, using(crate::specs::UnitsLaws::units_of_bound))]
pub fn put_low(out: &mut [u8], part: Part, i: usize)
    requires { (i + 8 ≤ length (units_in part)) × (8 ≤ length out.old) }
    ensures { Wrote out.old (lows (take 8 (drop i (units_in part.entry)))) out.new 8 }
{
    let bytes = [
        low(part, i),
        low(part, i + 1),
        low(part, i + 2),
        low(part, i + 3),
        low(part, i + 4),
        low(part, i + 5),
        low(part, i + 6),
        low(part, i + 7),
    ];
    out[..8].copy_from_slice(&bytes);
}

// Kept: two functions: one for both would be told mask, scale and divisor, as `front_of(le64(bytes, 2 * i), 0xFF80_FF80_FF80_FF80, 16)`.
// How many of the eight bytes from a place on are ASCII before one that is not: none of them has its highest bit set.
fn byte_front(bytes: &[u8], i: usize) -> usize
    requires { i + 8 ≤ length bytes.now }
    ensures { result ≡ ascii_front 8 (drop i bytes.now) }
{
    (le64(bytes, i) & 0x8080_8080_8080_8080).trailing_zeros() as usize / 8
}

// The same of the four units of wide text from a place on.
fn unit_front(bytes: &[u8], i: usize) -> usize
    requires { i + 4 ≤ length (units_of true bytes.now) }
    ensures { result ≡ ascii_front 4 (drop i (units_of true bytes.now)) }
{
    (le64(bytes, 2 * i) & 0xFF80_FF80_FF80_FF80).trailing_zeros() as usize / 16
}

// How many of the eight units from a place on are ASCII before one that is not.
pub fn front(part: Part, i: usize) -> usize
    requires { i + 8 ≤ length (units_in part) }
    ensures { result ≡ ascii_front 8 (drop i (units_in part.entry)) }
{
    if !part.wide {
        return byte_front(part.bytes, i);
    }
    let k = unit_front(part.bytes, i);
    if k < 4 {
        return k;
    }
    4 + unit_front(part.bytes, i + 4)
}
