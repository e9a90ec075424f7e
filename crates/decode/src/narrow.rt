// Text of characters of one and two bytes, tested and measured many bytes at a time: whether a byte is right shows by it and the one before,
// so that no byte waits for another, and a window of the bytes has no branch in it.
ghost use Rattle.std.specs.Prelude.{◌≡◌, true, ◌+◌, ◌-◌, ◌≤◌, ◌<◌, length, take, drop, get_or, min};
ghost use Rattle.text.specs.Utf8.{from_utf8};
ghost use Rattle.decode.specs.Measure.{measured};
ghost use Rattle.decode.specs.Narrow.{wrong, Window};

use super::chars::within;
use super::latin::is_ascii;
use super::measure::{Measured, measure};

// Of some bytes that are right: whether all are below C4, and how many end a character.
#[derive(Clone, Copy)]
pub struct Seen {
    pub low: bool,
    pub units: u8,
}

// Whether byte b can't come after z.
fn is_wrong(z: u8, b: u8) -> bool
    ensures { result ≡ wrong z b }
{
    (within(0x80, 0xBF, b) ^ (0xC0 <= z)) | within(0xC0, 0xC1, b) | (0xE0 <= b)
}

// Kept: the text is no slice of its own, here, in write.rt and in pairs.rt, but ends at `to` in `s`: up to 31 bytes behind it are read too, so that a window
// has no branch.

// The first n of the 32 bytes from a place on; the others are seen too, and count for nothing. Where they are all of the 32, nothing is masked out.
// None: a byte isn't right.
fn look_at<const ALL: bool>(s: &[u8], at: usize, n: u8) -> Option<Seen>
    requires { (0 < at) × (at + 32 ≤ length s.now) × (n ≤ 32) × (ALL ≡ true → n ≡ 32) }
    ensures { Window (get_or s.now (at - 1) 0) (take n (drop at s.now)) result }
{
    let mut bad = false;
    let mut high = false;
    let mut units: u8 = 0;
    // Kept: k beside i, since `(i as u8) < n` and `for k in 0..32u8` make 64 bits of each byte of the mask: a short text takes 1.2 times as long.
    let mut k: u8 = 0;
    for i in 0..32 {
        let b = s[at + i];
        let on = ALL | (k < n);
        bad |= is_wrong(s[at + i - 1], b) & on;
        high |= (0xC4 <= b) & on;
        units += u8::from((b < 0xC0) & on);
        k += 1;
    }
    if bad {
        return None;
    }
    Some(Seen { low: !high, units })
}

// The same, by how many they are.
fn look(s: &[u8], at: usize, n: u8) -> Option<Seen>
    requires { (0 < at) × (at + 32 ≤ length s.now) × (n ≤ 32) }
    ensures { Window (get_or s.now (at - 1) 0) (take n (drop at s.now)) result }
{
    if n == 32 {
        return look_at::<true>(s, at, n);
    }
    look_at::<false>(s, at, n)
}

// How many of n bytes that are left are taken together.
fn window(n: usize) -> u8
    ensures { result ≡ min n 32 }
{
    n.min(32) as u8
}

// Any text.
// Kept: the measure is made anew, so that it needn't be in memory. With `measure(&s[from..to])` where this is called 200 bytes of Latin or 20 of Greek at the end
// of a buffer took 8 to 12 % longer, 12 ideographs before other bytes 10 %, five letters of which two are beyond ASCII 7 %; three ideographs 8 % less.
fn any(s: &[u8], from: usize, to: usize) -> Option<Measured>
    requires { (from ≤ to) × (to ≤ length s.now) }
    ensures { result ≡ measured (from_utf8 (take (to - from) (drop from s.now))) }
{
    let Measured { units, latin } = measure(&s[from..to])?;
    Some(Measured { units, latin })
}

// The text, where 32 bytes follow it: window by window, or as any text where a byte isn't right or the last character is cut.
fn by_windows(s: &[u8], from: usize, to: usize) -> Option<Measured>
    requires { (from < to) × (to + 32 ≤ length s.now) }
    ensures { result ≡ measured (from_utf8 (take (to - from) (drop from s.now))) }
{
    let a = s[from];
    if is_wrong(0, a) | (0xC0 <= s[to - 1]) {
        return any(s, from, to);
    }
    let mut units = usize::from(a < 0xC0);
    let mut latin = a < 0xC4;
    for at in (from + 1..to).step_by(32) {
        let n = window(to - at);
        let Some(w) = look(s, at, n) else {
            return any(s, from, to);
        };
        units += usize::from(w.units);
        latin &= w.low;
    }
    Some(Measured { units, latin })
}

// The text of the bytes from a place to another, measured, or none where they are no UTF-8. What follows them is never part of it.
pub fn measure_at(s: &[u8], from: usize, to: usize) -> Option<Measured>
    requires { (from ≤ to) × (to ≤ length s.now) }
    ensures { result ≡ measured (from_utf8 (take (to - from) (drop from s.now))) }
{
    if is_ascii(&s[from..to]) {
        return Some(Measured {
            units: to - from,
            latin: true,
        });
    }
    if 32 <= s.len() - to {
        return by_windows(s, from, to);
    }
    any(s, from, to)
}
