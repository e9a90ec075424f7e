// A batch of names, written to the front of a lent buffer from the texts of a description. A function returns how many bytes it wrote where it says
// nothing else.
ghost use Rattle.std.specs.Prelude.{◌≡◌, true, cond, ◌++◌, ◌+◌, ◌*◌, ◌^◌, ◌≤◌, ◌<◌, length, take, replicate};
ghost use Rattle.base.specs.Find.{flat};
ghost use Rattle.base.specs.Number.{be_bytes};
ghost use Rattle.base.specs.Output.{Wrote};
ghost use Rattle.text.specs.Utf16.{is_well, encode16};
ghost use Rattle.text.specs.Utf8.{from_utf8};
ghost use Rattle.decode.specs.Measure.{text_of, fits_latin1};
ghost use Rattle.written.specs.BatchBytes.{string_bytes, head_bytes, batch_bytes};
ghost use Rattle.written.specs.HeaderBytes.{longest_name};
ghost use Rattle.header.specs.Places.{utf8_at, text_at, text_end, next_text, texts_from};
ghost use Rattle.header.specs.Parts.{texts_fit, strings_from, TextIn, string_units, laid, names_bytes, front_bytes};

use super::little::{put_le32, put_le64};
use base::number::be32_usize;
use decode::latin::{is_ascii, is_latin1};
use decode::write::{put_latin1, put_utf16le};
use text::plain::put_pieces;

// Zeros.
fn put_zeros(out: &mut [u8], n: usize) -> usize
    requires { n ≤ length out.old }
    ensures { Wrote out.old (replicate n 0) out.new result }
{
    out[..n].fill(0);
    n
}

// A string written: how many bytes it takes, and whether it is Latin-1.
#[derive(Clone, Copy)]
pub struct Put {
    pub size: usize,
    pub latin: bool,
}

// The string of the name that is the first bytes of s: Latin-1, or UTF-16LE where the text doesn't fit. ASCII is written as it stands.
// Kept: the text is no slice of its own, as in decode's narrow.rt: bytes behind the text are read.
fn put_string(out: &mut [u8], s: &[u8], to: usize) -> Put
    requires { (to ≤ length s.now) × (is_well (from_utf8 (take to s.now)) ≡ true) × (length (string_bytes (text_of (take to s.now))) ≤ length out.old) }
    ensures { Wrote out.old (string_bytes (text_of (take to s.now))) out.new result.size
        × (result.latin ≡ fits_latin1 (text_of (take to s.now))) }
{
    let text = &s[..to];
    if is_ascii(text) {
        put_pieces(out, text);
        return Put {
            size: to,
            latin: true,
        };
    }
    if is_latin1(text) {
        let size = put_latin1(out, s, to);
        return Put { size, latin: true };
    }
    let size = put_utf16le(out, text);
    Put { size, latin: false }
}

impl Put {
    // How many units it has.
    fn units(self) -> usize
        ensures { result ≡ string_units self.size self.latin }
    {
        if self.latin {
            return self.size;
        }
        self.size / 2
    }

    // The name's header, big-endian: bit 15 where it is UTF-16LE, and how many units it has.
    fn head(self) -> [u8; 2]
        requires { string_units self.size self.latin < 2 ^ 15 }
        ensures { result ≡ be_bytes 2 (cond self.latin 0 0x8000 + string_units self.size self.latin) }
    {
        let units = self.units() as u16;
        if self.latin {
            return units.to_be_bytes();
        }
        (0x8000 + units).to_be_bytes()
    }
}

// The text at a place: its header goes to one place, its string to another behind it. Returns how many bytes the string takes.
fn put_text(out: &mut [u8], head: usize, n: usize, s: &[u8], at: usize) -> usize
    requires { (at + 4 ≤ length s.now) × (text_end s.now at ≤ length s.now) × (is_well (from_utf8 (utf8_at s.now at)) ≡ true)
        × (length (encode16 (text_at s.now at)) ≤ longest_name) × (head + 2 ≤ n) × (n + length (string_bytes (text_at s.now at)) ≤ length out.old) }
    ensures { (result ≡ length (string_bytes (text_at s.now at)))
        × (out.new ≡ laid (laid out.old n (string_bytes (text_at s.now at))) head (head_bytes (text_at s.now at))) }
{
    let start = at + 4;
    let size = be32_usize(s, at);
    let p = put_string(&mut out[n..], &s[start..], size);
    out[head..head + 2].copy_from_slice(&p.head());
    p.size
}

// Where the text behind one starts.
pub fn next_text(s: &[u8], at: usize, more: usize) -> usize
    requires { TextIn more s.now at }
    ensures { result ≡ next_text more s.now at }
{
    at + 4 + be32_usize(s, at) + more
}

// What stands before a batch's names: how many there are, how many bytes their strings take, the version of the hashes.
fn put_front(out: &mut [u8], count: u32, strings: u32) -> usize
    requires { 16 ≤ length out.old }
    ensures { Wrote out.old (front_bytes count strings) out.new result }
{
    let a = put_le32(out, count);
    let b = a + put_le32(&mut out[a..], strings);
    b + put_le64(&mut out[b..], 0xC1640000)
}

// Texts that can be written, one behind another: the bytes that they stand in, where the first one starts, how many there are, and how many bytes
// stand behind each.
#[derive(Clone, Copy)]
pub struct Texts<'a> {
    pub s: &'a [u8],
    pub from: usize,
    pub count: usize,
    pub more: usize,
    pub ghost fit: { texts_fit more s.now from count ≡ true },
}

impl Texts<'_> {
    // Their headers, and behind them their strings.
    fn put_texts(self, out: &mut [u8]) -> usize
        requires { let ts = texts_from self.more self.s.now self.from self.count in length (flat head_bytes ts ++ flat string_bytes ts) ≤ length out.old }
        ensures { let ts = texts_from self.entry.more self.entry.s.now self.entry.from self.entry.count in
            Wrote out.old (flat head_bytes ts ++ flat string_bytes ts) out.new result }
    {
        let mut n = 2 * self.count;
        let mut at = self.from;
        for i in 0..self.count {
            n += put_text(out, 2 * i, n, self.s, at);
            at = next_text(self.s, at, self.more);
        }
        n
    }

    // Hash bytes, which are zero, headers and strings.
    fn put_names(self, out: &mut [u8]) -> usize
        requires { (self.count < 2 ^ 32) × (length (names_bytes (texts_from self.more self.s.now self.from self.count)) ≤ length out.old) }
        ensures { Wrote out.old (names_bytes (texts_from self.entry.more self.entry.s.now self.entry.from self.entry.count)) out.new result }
    {
        let a = put_zeros(out, 8 * self.count);
        a + self.put_texts(&mut out[a..])
    }

    // The batch, whose strings take so many bytes.
    pub fn put_batch(self, out: &mut [u8], strings: usize) -> usize
        requires { (self.count < 2 ^ 32) × (strings < 2 ^ 32) × (strings ≡ strings_from self.more self.s.now self.from self.count)
            × (length (batch_bytes (texts_from self.more self.s.now self.from self.count)) ≤ length out.old) }
        ensures { Wrote out.old (batch_bytes (texts_from self.entry.more self.entry.s.now self.entry.from self.entry.count)) out.new result }
    {
        if self.count == 0 {
            return put_le32(out, 0);
        }
        let a = put_front(out, self.count as u32, strings as u32);
        a + self.put_names(&mut out[a..])
    }
}
