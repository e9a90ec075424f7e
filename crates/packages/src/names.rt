// Names behind a text, as references and class paths have them.
ghost use Rattle.std.specs.Prelude.{◌≡◌, ◌++◌, ◌≤◌, length};
ghost use Rattle.text.specs.Digits.{decimal};
ghost use Rattle.base.specs.Output.{Wrote};
ghost use Rattle.text.specs.Utf8.{utf8};
ghost use Rattle.batch.specs.Holds.{Holds, text_at, name_at};

use base::output::put_bytes;
use batch::places::Name;
use batch::texts::put_place;
use text::digits::put_decimal;

// A text, and the name at a place behind it.
pub fn put_behind(out: &mut [u8], text: &[u8], b: &[u8], n: Name) -> usize
    requires { Holds b.now n.place (text_at b.now n.place) × (length (text.now ++ utf8 (name_at b.now n.place n.number)) ≤ length out.old) }
    ensures { Wrote out.old (text.now ++ utf8 (name_at b.now n.place n.number)) out.new result }
{
    let at = put_bytes(out, text);
    at + put_place(&mut out[at..], b, n)
}

// A text, and a number behind it.
pub fn put_number(out: &mut [u8], text: &[u8], n: u64) -> usize
    requires { length (text.now ++ decimal n) ≤ length out.old }
    ensures { Wrote out.old (text.now ++ decimal n) out.new result }
{
    let at = put_bytes(out, text);
    at + put_decimal(&mut out[at..], n)
}

// Two of them.
pub fn put_numbers(out: &mut [u8], text: &[u8], n: u64, then: &[u8], m: u64) -> usize
    requires { length ((text.now ++ decimal n) ++ (then.now ++ decimal m)) ≤ length out.old }
    ensures { Wrote out.old ((text.now ++ decimal n) ++ (then.now ++ decimal m)) out.new result }
{
    let at = put_number(out, text, n);
    at + put_number(&mut out[at..], then, m)
}
