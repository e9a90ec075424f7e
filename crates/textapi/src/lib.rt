// Layer 1's functions for tests and benchmarks in other languages.

#![tactic(auto)]

ghost use Rattle.std.specs.Prelude.{◌≡◌, true, false, length, MatchOption};
ghost use Rattle.lower.specs.Lower.{lower};
ghost use Rattle.city.specs.City.{city_hash64};
ghost use Rattle.textapi.specs.Answers.{fine, id_answer, name_answer, name_after};

use ids::id::name_id;
use lower::search::lower_in;
use rules::rules::{lower_pair, lower_quick};
use text::name::put_name;
use text::plain::name_len;
use text::text::{Part, Text};
use text::utf16::is_text;

#[unsafe(no_mangle)]
pub extern "C" fn text_city_hash64(s: &[u8]) -> u64
    ensures { result ≡ city_hash64 s.now }
{
    city::city::city_hash64(s)
}

// The lower-case form of a character, by the rules that the id of a name goes by; by the table where they say so, and beyond the last
// character, where it has nothing.
#[unsafe(no_mangle)]
pub extern "C" fn text_lower(c: u32) -> u32
    ensures { result ≡ lower c }
{
    if c < 0x1_0000 {
        if let Some(r) = lower_quick(c) {
            return r;
        }
    } else if c < 0x11_0000 {
        return lower_pair(c);
    }
    lower_in(c)
}

// Whether a part is a text that the functions below take: one of fewer than 2^32 bytes.
// Kept: apart from `fine_text`, and over bytes and a flag: the compiler then finds where the bytes are before it branches; behind a branch it does so by way of
// the register that holds the last result, so that each call waits for the one before.
fn is_fine(bytes: &[u8], wide: bool) -> bool
    ensures { result ≡ fine wide bytes.now }
{
    bytes.len() < 0x1_0000_0000 && is_text(Part { bytes, wide })
}

// The same as a text; none where it is no such text.
fn fine_text<'a>(bytes: &'a [u8], wide: bool) -> Option<Text<'a>>
    ensures { MatchOption result (fine wide bytes.now ≡ false)
        (λ t. (fine wide bytes.now ≡ true) × (t.part.wide ≡ wide) × (t.part.bytes.now ≡ bytes.now)) }
{
    if is_fine(bytes, wide) {
        return Some(Text {
            part: Part { bytes, wide },
        });
    }
    None
}

// The id of a name; 0 where it is no text.
// Kept: C sees a number, and no `Option<u64>`.
#[unsafe(no_mangle)]
pub extern "C" fn text_name_id(part: &[u8], wide: bool, number: u32) -> u64
    ensures { result ≡ id_answer wide part.now number }
{
    let Some(name) = fine_text(part, wide) else {
        return 0;
    };
    name_id(name, number)
}

// The rendered name in UTF-8 at the front of the buffer, and its length; where it is no text or has no room, 2^64 - 1 and
// the buffer as it was.
// Kept: C sees a number, and no `Option<u64>`.
#[unsafe(no_mangle)]
pub extern "C" fn text_put_name(out: &mut [u8], part: &[u8], wide: bool, number: u32) -> u64
    ensures { (result ≡ name_answer (length out.old) wide part.now number)
        × (out.new ≡ name_after out.old wide part.now number) }
{
    if let Some(name) = fine_text(part, wide) {
        if name_len(name, number) <= out.len() {
            return put_name(out, name, number) as u64;
        }
    }
    0xffff_ffff_ffff_ffff
}
