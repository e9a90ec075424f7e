// How many bytes of UTF-8 a text takes, by its units alone: none is decoded, and what each takes is a sum of tests without a branch, so that the
// compiler can take many units a turn.
ghost use Rattle.std.specs.Prelude.{◌≡◌, ◌+◌, ◌*◌, ◌^◌, ◌≤◌, ◌<◌, length, drop};
ghost use Rattle.text.specs.Units.{units_in};
ghost use Rattle.text.specs.UnitLength.{unit_length, units_length};

use super::text::Part;
use super::utf16::is_single;

// How far a unit falls short of three bytes.
fn unit_short(u: u32) -> u16
    ensures { result + unit_length u ≡ 3 }
{
    u16::from(u < 0x80) + u16::from(u < 0x800) + u16::from(!is_single(u))
}

// How many bytes n units from a place on take. They are added up in 16 bits, the width of a unit, and are few enough for that.
#[tactic(auto, using(crate::specs::UnitsLaws::units_of_bound))]
fn window_len(part: Part, from: usize, n: usize) -> usize
    requires { (from + n ≤ length (units_in part)) × (n ≤ 0x4000) }
    ensures { (result + units_length (drop (from + n) (units_in part.entry)) ≡ units_length (drop from (units_in part.entry)))
        × (result ≤ 3 * n) }
{
    let mut short: u16 = 0;
    for i in 0..n {
        short += unit_short(part.unit(from + i));
    }
    3 * n - usize::from(short)
}

// How many bytes the units of a part take.
pub fn units_len(part: Part) -> usize
    requires { length part.bytes.now < 2 ^ 32 }
    ensures { (result ≡ units_length (units_in part.entry)) × (result ≤ 3 * length part.entry.bytes.now) }
{
    let n = part.count();
    let mut at: usize = 0;
    for i in (0..n).step_by(0x4000) {
        at += window_len(part, i, (n - i).min(0x4000));
    }
    at
}
