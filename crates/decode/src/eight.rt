// A few bytes of ASCII in a row: seen in one test, and written as UTF-16LE at once.
ghost use Rattle.std.specs.Prelude.{◌≡◌, true, ◌+◌, ◌*◌, ◌≤◌, ◌<◌, length, take, drop, get_or};
ghost use Rattle.base.specs.Output.{Wrote};
ghost use Rattle.text.specs.Utf16.{is_well, unit_bytes, utf16le};
ghost use Rattle.text.specs.Utf8.{from_utf8};
ghost use Rattle.decode.specs.Eight.{is_few, is_eight, few_at, Few};
ghost use Rattle.decode.specs.Measure.{text_of};

use super::latin::all_below;
use text::units::put_unit;

// Whether N bytes from a place on are there, and ASCII.
fn starts_few<const N: usize>(s: &[u8], at: usize) -> bool
    requires { at ≤ length s.now }
    ensures { result ≡ is_few N s.now at }
{
    if s.len() - at < N {
        return false;
    }
    all_below::<N, 0x80>(s, at)
}

// Whether eight are.
pub fn starts_eight(s: &[u8], at: usize) -> bool
    requires { at ≤ length s.now }
    ensures { result ≡ is_eight s.now at }
{
    starts_few::<8>(s, at)
}

// How many bytes of ASCII are passed at once where one stands: eight, four or one.
pub fn ascii_at(s: &[u8], at: usize) -> usize
    requires { (at < length s.now) × (get_or s.now at 0 < 0x80) }
    ensures count { result ≡ few_at s.now at }
    ensures passed { (1 ≤ result) × Few result s.now at }
{
    if starts_few::<8>(s, at) {
        8
    } else if starts_few::<4>(s, at) {
        4
    } else {
        1
    }
}

// N bytes of ASCII as UTF-16LE.
fn put_few<const N: usize>(out: &mut [u8], s: &[u8], at: usize)
    requires { (at + N ≤ length s.now) × (2 * N ≤ length out.old) }
    ensures { Wrote out.old (unit_bytes (take N (drop at s.now))) out.new (2 * N) }
{
    for i in 0..N {
        put_unit(out, i, u16::from(s[at + i]));
    }
}

// Eight of them. Written out where it is called.
#[inline(always)]
pub fn put_eight(out: &mut [u8], s: &[u8], at: usize)
    requires { (at + 8 ≤ length s.now) × (16 ≤ length out.old) }
    ensures { Wrote out.old (unit_bytes (take 8 (drop at s.now))) out.new 16 }
{
    put_few::<8>(out, s, at);
}

// What `ascii_at` passes, as UTF-16LE. Returns how many bytes of ASCII they are. Written out where it is called.
// Kept: the tests of `ascii_at` once more, so that how many are written is known in each branch.
#[inline(always)]
pub fn put_ascii(out: &mut [u8], s: &[u8], at: usize) -> usize
    requires { (at < length s.now) × (get_or s.now at 0 < 0x80) × (is_well (from_utf8 (drop at s.now)) ≡ true)
        × (length (utf16le (text_of (drop at s.now))) ≤ length out.old) }
    ensures count { result ≡ few_at s.now at }
    ensures passed { (1 ≤ result) × Few result s.now at × Wrote out.old (unit_bytes (take result (drop at s.now))) out.new (2 * result) }
{
    if starts_few::<8>(s, at) {
        put_eight(out, s, at);
        return 8;
    }
    if starts_few::<4>(s, at) {
        put_few::<4>(out, s, at);
        return 4;
    }
    put_few::<1>(out, s, at);
    1
}
