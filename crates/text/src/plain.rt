// Names whose one-byte text is all ASCII: its bytes are its UTF-8, and are copied as they stand; other names go the way of `name`.
ghost use Rattle.std.specs.Prelude.{◌≡◌, ◌*◌, ◌^◌, ◌+◌, ◌≤◌, ◌<◌, length, take, drop};
ghost use Rattle.std.proofs.Math.Seq.{paste};
ghost use Rattle.text.specs.Affix.{all_ascii};
ghost use Rattle.base.specs.Output.{Wrote};
ghost use Rattle.text.specs.Plain.{Copied};
ghost use Rattle.text.specs.Utf8.{utf8};
ghost use Rattle.text.specs.Name.{text_bytes};
ghost use Rattle.text.specs.Parts.{base_in, rendered_in};

use super::name;
use super::name::{put_suffix, suffix_len};
use super::text::{Part, Text};
use base::number::{le32, le64};
use base::output::put_be32;

// Whether the eight bytes from a place on are ASCII: none of them has its highest bit set.
fn is_word(part: &[u8], i: usize) -> bool
    requires { i + 8 ≤ length part.now }
    ensures { result ≡ all_ascii (take 8 (drop i part.now)) }
{
    le64(part, i) & 0x8080_8080_8080_8080 == 0
}

// Whether the sixteen bytes from a place on are ASCII.
fn is_pair(part: &[u8], i: usize) -> bool
    requires { i + 16 ≤ length part.now }
    ensures { result ≡ all_ascii (take 16 (drop i part.now)) }
{
    is_word(part, i) & is_word(part, i + 8)
}

// Whether the four bytes from a place on are ASCII.
fn is_half(part: &[u8], i: usize) -> bool
    requires { i + 4 ≤ length part.now }
    ensures { result ≡ all_ascii (take 4 (drop i part.now)) }
{
    le32(part, i) & 0x8080_8080 == 0
}

// Whether up to three bytes are all ASCII.
fn is_tiny(part: &[u8]) -> bool
    ensures { result ≡ all_ascii part.now }
{
    part.iter().fold(0, |all, b| all | *b) < 128
}

// Whether up to seven bytes are all ASCII: from four on by the first four and the last four, which may have some in common.
fn is_short(part: &[u8]) -> bool
    requires { length part.now < 8 }
    ensures { result ≡ all_ascii part.now }
{
    let n = part.len();
    if n < 4 {
        return is_tiny(part);
    }
    is_half(part, 0) & is_half(part, n - 4)
}

// Whether eight bytes to 32 are all ASCII: by eight at each of four places, of which some may have bytes in common.
fn is_ends(part: &[u8]) -> bool
    requires { (8 ≤ length part.now) × (length part.now ≤ 32) }
    ensures { result ≡ all_ascii part.now }
{
    let last = part.len() - 8;
    is_word(part, 0)
        & is_word(part, last.min(8))
        & is_word(part, last.min(16))
        & is_word(part, last)
}

// Whether 32 bytes to 64 are all ASCII: by the first and the last 32.
fn is_long(part: &[u8]) -> bool
    requires { (32 ≤ length part.now) × (length part.now ≤ 64) }
    ensures { result ≡ all_ascii part.now }
{
    let last = part.len() - 16;
    is_pair(part, 0) & is_pair(part, 16) & is_pair(part, last.min(32)) & is_pair(part, last)
}

// Whether bytes are all ASCII. Written out where it is called, so that `put_plain` and what measures names have no call in them.
// Kept: up to 64 bytes by hand, beside the library's `is_ascii`, which has a loop below eight bytes, and from there tests the same words with a branch more: a
// copy of it in place of `is_ends` and `is_long` took 1.03 of the time in reports, 1.08 in headers of a corpus's names, 1.2 of short ASCII names.
#[inline(always)]
pub fn is_plain(part: &[u8]) -> bool
    ensures { result ≡ all_ascii part.now }
{
    let n = part.len();
    if n < 8 {
        return is_short(part);
    }
    if n <= 32 {
        return is_ends(part);
    }
    if n <= 64 {
        return is_long(part);
    }
    part.is_ascii()
}

// The eight bytes of src from a place on, to the same place, as one word.
// Kept: two functions, and a word: `put_at::<N>` by `out[at..at + N].copy_from_slice(&src[at..at + N])` was proved, and with it a name of 12 bytes was measured
// and written in 12.4 ns for 10.7, one of 20 bytes in 12.3 for 11.2.
fn put_eight(out: &mut [u8], src: &[u8], at: usize)
    requires { (at + 8 ≤ length src.now) × (at + 8 ≤ length out.old) }
    ensures { out.new ≡ paste out.old at (drop at src.now) 8 }
{
    out[at..at + 8].copy_from_slice(&le64(src, at).to_le_bytes());
}

// The sixteen bytes of src from a place on, to the same place.
fn put_sixteen(out: &mut [u8], src: &[u8], at: usize)
    requires { (at + 16 ≤ length src.now) × (at + 16 ≤ length out.old) }
    ensures { out.new ≡ paste out.old at (drop at src.now) 16 }
{
    put_eight(out, src, at);
    put_eight(out, src, at + 8);
}

// The four bytes of src from a place on, to the same place, as one word.
fn put_half(out: &mut [u8], src: &[u8], at: usize)
    requires { (at + 4 ≤ length src.now) × (at + 4 ≤ length out.old) }
    ensures { out.new ≡ paste out.old at (drop at src.now) 4 }
{
    out[at..at + 4].copy_from_slice(&le32(src, at).to_le_bytes());
}

// Up to three bytes.
// Kept: a loop by hand: the library copies a length that isn't known by a call.
fn put_tiny(out: &mut [u8], part: &[u8])
    requires { length part.now ≤ length out.old }
    ensures { Wrote out.old part.now out.new (length part.now) }
{
    for (i, b) in part.iter().enumerate() {
        out[i] = *b;
    }
}

// Up to seven bytes: from four on the first four and the last four, which may have some in common.
fn put_short(out: &mut [u8], part: &[u8])
    requires { (length part.now < 8) × (length part.now ≤ length out.old) }
    ensures { Wrote out.old part.now out.new (length part.now) }
{
    let n = part.len();
    if n < 4 {
        put_tiny(out, part);
        return;
    }
    put_half(out, part, 0);
    put_half(out, part, n - 4);
}

// Eight bytes to 32, by eight at each of four places, of which some may have bytes in common.
fn put_ends(out: &mut [u8], part: &[u8])
    requires { (8 ≤ length part.now) × (length part.now ≤ 32) × (length part.now ≤ length out.old) }
    ensures { Wrote out.old part.now out.new (length part.now) }
{
    let last = part.len() - 8;
    put_eight(out, part, 0);
    put_eight(out, part, last.min(8));
    put_eight(out, part, last.min(16));
    put_eight(out, part, last);
}

// 32 bytes to 64: the first and the last 32.
fn put_long(out: &mut [u8], part: &[u8])
    requires { (32 ≤ length part.now) × (length part.now ≤ 64) × (length part.now ≤ length out.old) }
    ensures { Wrote out.old part.now out.new (length part.now) }
{
    let last = part.len() - 16;
    put_sixteen(out, part, 0);
    put_sixteen(out, part, 16);
    put_sixteen(out, part, last.min(32));
    put_sixteen(out, part, last);
}

// Sixteen bytes and more, sixteen a turn; the last sixteen may have some of those before them.
// Kept: a loop by hand: the library copies a length that isn't known by a call of the C library's memmove, which an archive for C would need from outside;
// and sixteen a turn, since a turn of one byte is made that call too, where the compiler sees that part and buffer have no byte in common.
fn put_turns(out: &mut [u8], part: &[u8])
    requires { (16 ≤ length part.now) × (length part.now ≤ length out.old) }
    ensures { Wrote out.old part.now out.new (length part.now) }
{
    let n = part.len();
    for turn in 0..n / 16 {
        put_sixteen(out, part, 16 * turn);
    }
    put_sixteen(out, part, n - 16);
}

// Bytes: up to 64 by pieces at fixed places, from there on by turns, with no call of the library's copy. Written out where it is called, as `is_plain`.
#[inline(always)]
pub fn put_pieces(out: &mut [u8], part: &[u8])
    requires { length part.now ≤ length out.old }
    ensures { Wrote out.old part.now out.new (length part.now) }
{
    let n = part.len();
    if n < 8 {
        put_short(out, part);
    } else if n <= 32 {
        put_ends(out, part);
    } else if n <= 64 {
        put_long(out, part);
    } else {
        put_turns(out, part);
    }
}

// Bytes, and whether they are all ASCII. A function of its own: where the compiler writes it out in each that writes a name, reports take 1.03 of the time.
#[inline(never)]
pub fn put_plain(out: &mut [u8], part: &[u8]) -> bool
    requires { length part.now ≤ length out.old }
    ensures { (result ≡ all_ascii part.now) × Wrote out.old part.now out.new (length part.now) }
{
    put_pieces(out, part);
    is_plain(part)
}

// Kept: that a text has less than 2^32 bytes is a `requires` of the few functions that count or hash it: `Text` is public, and as a ghost field of it this
// would be asked of all who make one.

// How many bytes of UTF-8 the base takes.
pub fn base_len(text: Text) -> usize
    requires { length text.part.bytes.now < 2 ^ 32 }
    ensures { (result ≡ length (utf8 (base_in text.entry.part))) × (result ≤ 4 * length text.entry.part.bytes.now) }
{
    if text.part.wide {
        return name::base_len(text);
    }
    if is_plain(text.part.bytes) {
        return text.part.bytes.len();
    }
    name::base_len(text)
}

// The bytes of one-byte text, and whether they are the base: not for wide text, of which none are written.
fn put_copy(out: &mut [u8], part: Part) -> bool
    requires { length (utf8 (base_in part)) ≤ length out.old }
    ensures { Copied part.entry.wide part.entry.bytes.now out.old out.new result }
{
    if part.wide {
        return false;
    }
    put_plain(out, part.bytes)
}

// The base.
pub fn put_base(out: &mut [u8], text: Text) -> usize
    requires { length (utf8 (base_in text.part)) ≤ length out.old }
    ensures { Wrote out.old (utf8 (base_in text.entry.part)) out.new result }
{
    if put_copy(out, text.part) {
        return text.part.bytes.len();
    }
    name::put_base(out, text)
}

// How many bytes of UTF-8 the rendered name takes.
pub fn name_len(text: Text, number: u32) -> usize
    requires { length text.part.bytes.now < 2 ^ 32 }
    ensures { (result ≡ length (utf8 (rendered_in text.entry.part number))) × (result ≤ 4 * length text.entry.part.bytes.now + 21) }
{
    base_len(text) + suffix_len(number)
}

// The rendered name. What is not copied is written by `name` whole, suffix and all, here and below: `name::put_name` so has two callers, and
// the compiler keeps it apart, which leaves little code where names are copied.
pub fn put_name(out: &mut [u8], text: Text, number: u32) -> usize
    requires { length (utf8 (rendered_in text.part number)) ≤ length out.old }
    ensures { Wrote out.old (utf8 (rendered_in text.entry.part number)) out.new result }
{
    if put_copy(out, text.part) {
        let n = text.part.bytes.len();
        return n + put_suffix(&mut out[n..], number);
    }
    name::put_name(out, text, number)
}

// The rendered name as a text: its length in 4 bytes, then its bytes.
// Kept: `put_name_text` here and in `name`, which only this one calls, for wide text: so `name::put_name` has its two callers. One function for both would
// be handed the `put_name` to call, as `put_text_by(put_name, out, text, number)`, for two lines.
pub fn put_name_text(out: &mut [u8], text: Text, number: u32) -> usize
    requires { (length (text_bytes (rendered_in text.part number)) ≤ length out.old) × (length (utf8 (rendered_in text.part number)) < 2 ^ 32) }
    ensures { Wrote out.old (text_bytes (rendered_in text.entry.part number)) out.new result }
{
    if text.part.wide {
        return name::put_name_text(out, text, number);
    }
    let n = put_name(&mut out[4..], text, number);
    put_be32(out, n as u32) + n
}
