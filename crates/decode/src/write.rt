// The text of some bytes of UTF-8, written to the front of a lent buffer as Latin-1 or as UTF-16LE. Each function returns how many bytes
// it wrote.
ghost use Rattle.std.specs.Prelude.{◌≡◌, true, ◌≤◌, ◌<◌, length, take, drop, get_or};
ghost use Rattle.base.specs.Output.{Wrote};
ghost use Rattle.text.specs.Utf16.{is_well, encode_one, unit_bytes, utf16le};
ghost use Rattle.text.specs.Utf8.{from_utf8};
ghost use Rattle.decode.specs.Measure.{text_of, fits_latin1};
ghost use Rattle.decode.specs.Run.{four_at};
ghost use Rattle.decode.specs.TurnLaws.{Turn};

use super::chars::known_char;
use super::eight::put_ascii;
use super::pairs::{pairs_of, put_pairs};
use super::run::{Three, Two, is_run, put_run};
use super::tails::{put_each, put_last};
use text::units::put_unit;

// Kept: that bytes are UTF-8 is a `requires` on a slice, on its first bytes or on those from a place on, here and wherever text that is known to be UTF-8
// is read. A struct with that as a ghost field would be made anew where one of these becomes another: `put_run::<Two>(out, Utf8 { bytes: &s[at..] })`.
// And no `&str`: `&text[at..]` needs that `at` is a boundary of characters, and `put_latin1` reads bytes behind the text.

// The text that is the first bytes of s, as Latin-1: pairs of bytes, many at once, behind its first byte, and its last byte or two alone. Where few bytes
// follow the text, it is written byte by byte.
// Kept: `while`: a `for` whose step is 32 bytes doesn't say behind which byte its last pairs end, so that `put_last` would have to find that a second time.
pub fn put_latin1(out: &mut [u8], s: &[u8], to: usize) -> usize
    requires { (to ≤ length s.now) × (is_well (from_utf8 (take to s.now)) ≡ true) × (fits_latin1 (text_of (take to s.now)) ≡ true)
        × (length (text_of (take to s.now)) ≤ length out.old) }
    ensures { Wrote out.old (text_of (take to s.now)) out.new result }
{
    let text = &s[..to];
    if (to < 2) | (s.len() - to < 33) {
        return put_each(out, text);
    }
    let a = s[0];
    out[0] = a;
    let mut n = usize::from(a < 0xC0);
    let mut i = 1;
    while 3 <= to - i {
        let pairs = pairs_of(to - i);
        n += put_pairs(&mut out[n..], s, to, i, pairs);
        i += 2 * pairs;
    }
    n + put_last(&mut out[n..], text, i)
}

// The character of four bytes at a place, as UTF-16LE: its two units.
// Kept: each unit from the bytes, with no scalar value between, which takes some ten instructions more.
fn put_pair(out: &mut [u8], s: &[u8], at: usize) -> usize
    requires { (at < length s.now) × (is_well (from_utf8 (drop at s.now)) ≡ true) × (0xF0 ≤ get_or s.now at 0) × (4 ≤ length out.old) }
    ensures { Turn s.now at (four_at s.now at) 4 × Wrote out.old (unit_bytes (encode_one (four_at s.now at))) out.new result }
{
    let a = u32::from(s[at]);
    let b = u32::from(s[at + 1]);
    let c = u32::from(s[at + 2]);
    let d = u32::from(s[at + 3]);
    put_unit(out, 0, (256 * a + 4 * b + c / 16 - 0x1A48) as u16);
    put_unit(out, 1, (0xDB80 + 64 * (c % 16) + d) as u16);
    4
}

// The text as UTF-16LE: eight characters of ASCII at once or four, four of two bytes or of three, others one by one.
// Kept: `while`, since the text decides how far a turn goes: no range has such a step. And runs of two bytes are asked before a character of four bytes: behind
// it Cyrillic takes 1.1 times as long.
pub fn put_utf16le(out: &mut [u8], s: &[u8]) -> usize
    requires { (is_well (from_utf8 s.now) ≡ true) × (length (utf16le (text_of s.now)) ≤ length out.old) }
    ensures { Wrote out.old (utf16le (text_of s.now)) out.new result }
{
    let mut n = 0;
    let mut at = 0;
    while at < s.len() {
        let a = s[at];
        if a < 0x80 {
            let few = put_ascii(&mut out[n..], s, at);
            n += 2 * few;
            at += few;
            continue;
        }
        if a < 0xE0 {
            if is_run::<Two>(s, at) {
                put_run::<Two>(&mut out[n..], s, at);
                n += 8;
                at += 8;
                continue;
            }
        } else if a < 0xF0 && is_run::<Three>(s, at) {
            put_run::<Three>(&mut out[n..], s, at);
            n += 8;
            at += 12;
            continue;
        }
        if 0xF0 <= a {
            n += put_pair(&mut out[n..], s, at);
            at += 4;
            continue;
        }
        let c = known_char(s, at);
        put_unit(&mut out[n..], 0, c.value as u16);
        n += 2;
        at += c.size;
    }
    n
}
