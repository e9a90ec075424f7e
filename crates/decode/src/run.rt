// Four characters of two bytes or of three in a row, in text that is known to be UTF-8: seen by their first bytes and written as UTF-16LE at once.
ghost use Rattle.std.specs.Prelude.{◌≡◌, Bool, true, List, [], ◌∷◌, ℕ, ◌/◌, ◌%◌, ◌≤◌, ◌<◌, length, drop, get_or};
ghost use Rattle.std.proofs.Common.{rules};
ghost use Rattle.base.specs.Output.{Wrote};
ghost use Rattle.text.specs.Utf16.{is_well};
ghost use Rattle.text.specs.Utf8.{from_utf8};
ghost use Rattle.decode.specs.Run.{leads_two, two_at, leads_three, three_at, four_led, four_units};
ghost use Rattle.decode.specs.TurnLaws.{Turn};

use super::chars::{three, two, within};
use text::units::put_unit;

// A kind of character by how many bytes it has: one unit, which its first byte tells.
pub trait Lead {
    const SIZE: usize;

    ghost SIZE: { ℕ };

    ghost lead: { ℕ → Bool };

    ghost value: { List ℕ → ℕ → ℕ };

    // Whether a byte is the first of such a character.
    fn leads(b: u8) -> bool
        ensures { result ≡ lead b };

    // The scalar value of the bytes at a place, which are such a character.
    fn value_at(s: &[u8], at: usize) -> u16
        requires { (at < length s.now) × (is_well (from_utf8 (drop at s.now)) ≡ true) × (lead (get_or s.now at 0) ≡ true) }
        ensures { (result ≡ value s.now at) × Turn s.now at result SIZE };

    ghost few: { (1 ≤ SIZE) × (SIZE ≤ 3) };
}

// Characters of two bytes.
pub struct Two;

impl Lead for Two {
    const SIZE: usize = 2;

    ghost SIZE = { 2 };

    ghost lead = { leads_two };

    ghost value = { two_at };

    fn leads(b: u8) -> bool {
        within(0xC0, 0xDF, b)
    }

    fn value_at(s: &[u8], at: usize) -> u16 {
        two(s[at], s[at + 1]) as u16
    }

    ghost few = { Prim.search rules };
}

// Characters of three bytes.
pub struct Three;

impl Lead for Three {
    const SIZE: usize = 3;

    ghost SIZE = { 3 };

    ghost lead = { leads_three };

    ghost value = { three_at };

    fn leads(b: u8) -> bool {
        b & 0xF0 == 0xE0
    }

    fn value_at(s: &[u8], at: usize) -> u16 {
        three(s[at], s[at + 1], s[at + 2]) as u16
    }

    ghost few = { Prim.search rules };
}

// Whether the bytes of four such characters are there from a place on, by their first bytes. One test, without a branch.
pub fn is_run<L: Lead>(s: &[u8], at: usize) -> bool
    requires { at ≤ length s.now }
    ensures { result ≡ four_led L.lead L.SIZE s.now at }
{
    let size = L::SIZE;
    if s.len() - at < 4 * size {
        return false;
    }
    L::leads(s[at])
        & L::leads(s[at + size])
        & L::leads(s[at + 2 * size])
        & L::leads(s[at + 3 * size])
}

// Four such characters as UTF-16LE.
pub fn put_run<L: Lead>(out: &mut [u8], s: &[u8], at: usize)
    requires { (is_well (from_utf8 (drop at s.now)) ≡ true) × (four_led L.lead L.SIZE s.now at ≡ true) × (8 ≤ length out.old) }
    ensures { Wrote out.old (four_units L.value L.SIZE s.now at) out.new 8 }
{
    let size = L::SIZE;
    put_unit(out, 0, L::value_at(s, at));
    put_unit(out, 1, L::value_at(s, at + size));
    put_unit(out, 2, L::value_at(s, at + 2 * size));
    put_unit(out, 3, L::value_at(s, at + 3 * size));
}
