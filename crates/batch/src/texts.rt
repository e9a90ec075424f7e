// The text at a place of a block, and the name that it makes with an instance number: written, measured, compared. A caller says
// what stands there (`Holds`) and never cuts the block itself.
ghost use Rattle.std.specs.Prelude.{◌≡◌, true, ◌+◌, ◌*◌, ◌≤◌, length};
ghost use Rattle.text.specs.Affix.{starts_with, ends_with, all_ascii};
ghost use Rattle.text.specs.AffixLaws.{unit_size};
ghost use Rattle.text.specs.Name.{text_bytes};
ghost use Rattle.base.specs.Output.{Wrote};
ghost use Rattle.text.specs.Utf8.{utf8};
ghost use Rattle.batch.specs.Places.{part_at};
ghost use Rattle.batch.specs.Holds.{text_at, name_at, Holds, place_without};

use super::places::{Name, Place};
use text::text::{Part, Text};

// Kept: block and name are two parameters, and that the place holds a text is a `requires`: rows and the work buffer keep names without their block,
// so that a struct of both would be made anew for each call, as `Stands { block: b, name: u }.len()`.
// Kept: an affix is bytes, and that they are ASCII a `requires`: each is a literal, of which a type would be made in the call, as
// `Ascii { bytes: b"Class" }`.

// The bytes at a place.
pub fn part_of(b: &[u8], p: Place) -> &[u8]
    requires { p.start + p.size ≤ length b.now }
    ensures { result.now ≡ part_at b.now p }
{
    let start = p.start;
    let end = start + p.size;
    &b[start..end]
}

// The text at a place.
pub fn text_of<'a>(b: &'a [u8], p: Place) -> Text<'a>
    requires { Holds b.now p (text_at b.now p) }
    ensures { (result.part.wide ≡ p.wide) × (result.part.bytes.now ≡ part_at b.now p) }
{
    let bytes = part_of(b, p);
    Text {
        part: Part {
            bytes,
            wide: p.wide,
        },
    }
}

// How many bytes of UTF-8 the name takes.
pub fn place_len(b: &[u8], n: Name) -> usize
    requires { Holds b.now n.place (text_at b.now n.place) }
    ensures { (result ≡ length (utf8 (name_at b.now n.place n.number))) × (result ≤ 131089) }
{
    text::plain::name_len(text_of(b, n.place), n.number)
}

// The name.
pub fn put_place(out: &mut [u8], b: &[u8], n: Name) -> usize
    requires { Holds b.now n.place (text_at b.now n.place) × (length (utf8 (name_at b.now n.place n.number)) ≤ length out.old) }
    ensures { Wrote out.old (utf8 (name_at b.now n.place n.number)) out.new result }
{
    text::plain::put_name(out, text_of(b, n.place), n.number)
}

// The name as a text: its length in 4 bytes, then its bytes.
pub fn put_place_text(out: &mut [u8], b: &[u8], n: Name) -> usize
    requires { Holds b.now n.place (text_at b.now n.place) × (length (text_bytes (name_at b.now n.place n.number)) ≤ length out.old) }
    ensures { Wrote out.old (text_bytes (name_at b.now n.place n.number)) out.new result }
{
    text::plain::put_name_text(out, text_of(b, n.place), n.number)
}

// Whether the text starts with an ASCII text.
pub fn place_starts_with(b: &[u8], p: Place, affix: &[u8]) -> bool
    requires { Holds b.now p (text_at b.now p) × (all_ascii affix.now ≡ true) }
    ensures { result ≡ starts_with (text_at b.now p) affix.now }
{
    text::affix::starts_with(text_of(b, p), affix)
}

// Whether the text ends in an ASCII text.
pub fn place_ends_with(b: &[u8], p: Place, affix: &[u8]) -> bool
    requires { Holds b.now p (text_at b.now p) × (all_ascii affix.now ≡ true) }
    ensures { result ≡ ends_with (text_at b.now p) affix.now }
{
    text::affix::ends_with(text_of(b, p), affix)
}

// How many bytes a unit takes.
fn unit_size(wide: bool) -> usize
    ensures { result ≡ unit_size wide }
{
    if wide { 2 } else { 1 }
}

// The place without its last n units.
pub fn place_without(p: Place, n: usize) -> Place
    requires { unit_size p.wide * n ≤ p.size }
    ensures { result ≡ place_without p n }
{
    Place {
        start: p.start,
        size: p.size - unit_size(p.wide) * n,
        wide: p.wide,
    }
}
