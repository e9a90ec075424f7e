// A text as the units of its lowered text.
ghost use Rattle.std.specs.Prelude.{◌≡◌, cond, Some, None, ◌<◌, length, get_or};
ghost use Rattle.lower.specs.Lower.{lowered};
ghost use Rattle.rules.specs.Quick.{asks};
ghost use Rattle.text.specs.Utf16.{encode16};
ghost use Rattle.text.specs.Utf16Cases.{High, Low};
ghost use Rattle.text.specs.Parts.{base_in};
ghost use Rattle.text.specs.Units.{units_in};
ghost use Rattle.ids.specs.LoweredUnits.{lowered_unit};

use lower::ascii::lower_ascii;
use lower::search::lower_in;
use rules::rules::{lower_pair, lower_quick};
use text::text::Text;

// A trailing surrogate lowered, with the leading one before it.
fn lower_trailing(before: u32, u: u32) -> u32
    requires { Low u × High before }
    ensures { result ≡ lowered_unit before u }
{
    let c = 0x1_0000 + (before - 0xD800) * 0x400 + (u - 0xDC00);
    0xDC00 + (lower_pair(c) - 0x1_0000) % 0x400
}

// Unit i of a lowered text, by the rules; none where the table is to be asked. Most units of most names are ASCII, which is asked first. A
// trailing surrogate is never the first unit.
pub fn quick_unit(text: Text, i: usize) -> Option<u32>
    requires { i < length (units_in text.part) }
    ensures { result ≡ cond (asks (get_or (units_in text.entry.part) i 0)) None
        (Some (get_or (encode16 (lowered (base_in text.entry.part))) i 0)) }
{
    let u = text.part.unit(i);
    if u < 0x80 {
        return Some(lower_ascii(u));
    }
    match u {
        0xD800..=0xDBFF => Some(u),
        0xDC00..=0xDFFF => Some(lower_trailing(text.part.unit(i - 1), u)),
        _ => lower_quick(u),
    }
}

// The same, by the table where the rules have none.
pub fn lowered_unit(text: Text, i: usize) -> u32
    requires { i < length (units_in text.part) }
    ensures { (result ≡ get_or (encode16 (lowered (base_in text.entry.part))) i 0) × (result < 65536) }
{
    if let Some(u) = quick_unit(text, i) {
        return u;
    }
    lower_in(text.part.unit(i))
}
