// Names measured and written: the text of a part of a block, and an instance number.
ghost use Rattle.std.specs.Prelude.{◌≡◌, true, false, ◌*◌, ◌^◌, ◌+◌, ◌≤◌, ◌<◌, length};
ghost use Rattle.base.specs.Output.{Wrote};
ghost use Rattle.text.specs.Units.{units_in};
ghost use Rattle.text.specs.Parts.{base_in, rendered_in};
ghost use Rattle.text.specs.Utf8.{utf8};
ghost use Rattle.text.specs.Front.{well_from, bytes_from, Passed, Turned};
ghost use Rattle.text.specs.Name.{suffix, text_bytes};

use super::digits::{decimal_len, put_decimal};
use super::front::{front, put_low};
use super::measure::units_len;
use super::text::{Part, Text};
use super::threes::{Run, put_threes};
use super::utf8::put_utf8;
use super::utf16::scalar_at;
use base::output::put_be32;

// Kept: a text and a number are two parameters, here, in plain.rt and in ids: batch and zen make the text in the call,
// `name_len(text_of(b, n.place), n.number)`; of a struct they would say `name_len(Numbered { text: text_of(b, n.place), number: n.number })`.

// How many bytes of UTF-8 the base takes.
pub fn base_len(text: Text) -> usize
    requires { length text.part.bytes.now < 2 ^ 32 }
    ensures { (result ≡ length (utf8 (base_in text.entry.part))) × (result ≤ 4 * length text.entry.part.bytes.now) }
{
    units_len(text.part)
}

// The bytes of the units from a place on, scalar value by scalar value: of all of them, or of those before the first that is ASCII.
// Kept: a `while`, here and in `put_base`, since each step says where the next begins, and what follows the loop asks where it ended.
fn put_scalars<const ALL: bool>(out: &mut [u8], part: Part, from: usize) -> Run
    requires { (from ≤ length (units_in part)) × (well_from (units_in part) from ≡ true)
        × (length (bytes_from (units_in part) from) ≤ length out.old) }
    ensures { Passed ALL (units_in part.entry) out.old out.new from result.next result.at }
{
    let n = part.count();
    let mut at: usize = 0;
    let mut i = from;
    while i < n {
        let Some(c) = scalar_at(part, i) else {
            return Run { at, next: i };
        };
        if !ALL && c.value < 128 {
            return Run { at, next: i };
        }
        at += put_utf8(&mut out[at..], c.value);
        i += c.units;
    }
    Run { at, next: i }
}

// The bytes of the units from a place on that are beyond ASCII, those of three bytes in front by two. A function of its own: names in ASCII don't come here.
fn put_beyond(out: &mut [u8], part: Part, from: usize) -> Run
    requires { (from ≤ length (units_in part)) × (well_from (units_in part) from ≡ true)
        × (length (bytes_from (units_in part) from) ≤ length out.old) }
    ensures { Passed false (units_in part.entry) out.old out.new from result.next result.at }
{
    let r = put_threes(out, part, from);
    let s = put_scalars::<false>(&mut out[r.at..], part, r.next);
    Run {
        at: r.at + s.at,
        next: s.next,
    }
}

// The bytes of the units from a place on: eight that are ASCII, or fewer and what beyond ASCII follows them. Eight are written at once, which is
// too much where fewer are ASCII; there is room, and what follows is written over it.
fn put_turn(out: &mut [u8], part: Part, i: usize) -> Run
    requires { (i + 8 ≤ length (units_in part)) × (well_from (units_in part) i ≡ true)
        × (length (bytes_from (units_in part) i) ≤ length out.old) }
    ensures { Turned (units_in part.entry) out.old out.new i result.next result.at }
{
    put_low(out, part, i);
    let k = front(part, i);
    if k == 8 {
        return Run { at: 8, next: i + 8 };
    }
    let r = put_beyond(&mut out[k..], part, i + k);
    Run {
        at: k + r.at,
        next: r.next,
    }
}

// The base.
pub fn put_base(out: &mut [u8], text: Text) -> usize
    requires { length (utf8 (base_in text.part)) ≤ length out.old }
    ensures { Wrote out.old (utf8 (base_in text.entry.part)) out.new result }
{
    let n = text.part.count();
    let mut at: usize = 0;
    let mut i: usize = 0;
    while 8 <= n - i {
        let r = put_turn(&mut out[at..], text.part, i);
        at += r.at;
        i = r.next;
    }
    at + put_scalars::<true>(&mut out[at..], text.part, i).at
}

// How many bytes an instance number adds.
pub fn suffix_len(number: u32) -> usize
    ensures { (result ≡ length (suffix number)) × (result ≤ 21) }
{
    if number == 0 {
        return 0;
    }
    1 + decimal_len(u64::from(number - 1))
}

// What an instance number adds.
pub fn put_suffix(out: &mut [u8], number: u32) -> usize
    requires { length (suffix number) ≤ length out.old }
    ensures { Wrote out.old (suffix number) out.new result }
{
    if number == 0 {
        return 0;
    }
    out[0] = b'_';
    1 + put_decimal(&mut out[1..], u64::from(number - 1))
}

// The rendered name.
pub fn put_name(out: &mut [u8], text: Text, number: u32) -> usize
    requires { length (utf8 (rendered_in text.part number)) ≤ length out.old }
    ensures { Wrote out.old (utf8 (rendered_in text.entry.part number)) out.new result }
{
    let at = put_base(out, text);
    at + put_suffix(&mut out[at..], number)
}

// The rendered name as a text: its length in 4 bytes, then its bytes.
pub fn put_name_text(out: &mut [u8], text: Text, number: u32) -> usize
    requires { (length (text_bytes (rendered_in text.part number)) ≤ length out.old) × (length (utf8 (rendered_in text.part number)) < 2 ^ 32) }
    ensures { Wrote out.old (text_bytes (rendered_in text.entry.part number)) out.new result }
{
    let n = put_name(&mut out[4..], text, number);
    put_be32(out, n as u32) + n
}
