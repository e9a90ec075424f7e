// A description checked (27), and where its parts are.
ghost use Rattle.std.specs.Prelude.{◌≡◌, ◌*◌, ◌/◌, ◌^◌, ◌≤◌, ◌<◌, length};
ghost use Rattle.base.specs.ReadingRows.{cells};
ghost use Rattle.zen.specs.Zen.{named};
ghost use Rattle.header.specs.Places.{export_in};
ghost use Rattle.header.specs.Parts.{Says, batch_of, Small, regions_of};
ghost use Rattle.header.specs.Parts.{string_size, sized_text, sized_texts, Begun, Tabled, Listed};

use base::number::be32_usize;
use decode::measure::Measured;
use decode::narrow::measure_at;

// Texts that can be written: where what follows starts, and how many bytes their strings take.
#[derive(Clone, Copy)]
pub struct Extent {
    pub next: usize,
    pub size: usize,
}

// The parts of a description: how many name texts, from 17 on, and how many bytes their strings take; where the exports start and how many there
// are; so of the hashes, and of the imported names, with the bytes of their strings.
#[derive(Clone, Copy)]
pub struct Parts {
    pub texts: usize,
    pub strings: usize,
    pub exports: usize,
    pub entries: usize,
    pub hashes: usize,
    pub keys: usize,
    pub imported: usize,
    pub names: usize,
    pub spelt: usize,
}

// Where the header's regions start, and its size.
#[derive(Clone, Copy)]
pub struct Regions {
    pub hashes: usize,
    pub exports: usize,
    pub imported: usize,
    pub size: usize,
}

// "A name above 32,767 units".
const LONGEST_NAME: usize = 32767;

// "A header above 2,147,483,647 bytes".
const LONGEST_HEADER: usize = 2147483647;

// How many bytes the string of a text takes.
pub fn string_size(text: Measured) -> usize
    requires { text.units < 2 ^ 32 }
    ensures { result ≡ string_size text.units text.latin }
{
    if text.latin {
        return text.units;
    }
    2 * text.units
}

// The text at a place, with so many bytes behind it. None: it can't be written.
fn sized_text(s: &[u8], at: usize, more: usize) -> Option<Extent>
    requires { (at ≤ length s.now) × (more ≤ 4) }
    ensures { result ≡ sized_text more s.now at }
{
    let left = s.len() - at;
    if left < 4 {
        return None;
    }
    let n = be32_usize(s, at);
    if left - 4 < n + more {
        return None;
    }
    let start = at + 4;
    let text = measure_at(s, start, start + n)?;
    if LONGEST_NAME < text.units {
        return None;
    }
    Some(Extent {
        next: start + n + more,
        size: string_size(text),
    })
}

// So many texts from a place on. None: one of them can't be written.
// Kept: that the count fits 32 bits is a `requires` here and at `batch_size`, which take a count alone, and in names.rt of the batch that is written: as a ghost
// field of `Texts` it would be asked of all who make one, and `put_numbers`, which is public and takes one too, has never asked it.
fn sized_texts(s: &[u8], from: usize, count: usize, more: usize) -> Option<Extent>
    requires { (from ≤ length s.now) × (count < 2 ^ 32) × (more ≤ 4) }
    ensures { result ≡ sized_texts 0 more s.now from count }
{
    let mut next = from;
    let mut size: usize = 0;
    for _ in 0..count {
        let text = sized_text(s, next, more)?;
        next = text.next;
        size += text.size;
    }
    Some(Extent { next, size })
}

// Each export's text number is within the list; an export stands in 40 bytes.
// Kept: zen's tables.rt has its own, for exports of another form: one for both would be told how wide they are and how to read the name, as
// `all_named(exports.chunks_exact(40), |export| be32_usize(export, 0), count)`, which says what stands here in other words.
fn check_exports(exports: &[u8], count: usize) -> bool
    ensures { result ≡ named count (cells (export_in exports.now) 40 0 (length exports.now / 40)) }
{
    exports
        .chunks_exact(40)
        .all(|export| be32_usize(export, 0) < count)
}

// How many bytes a batch takes.
fn batch_size(count: usize, strings: usize) -> usize
    requires { (count < 2 ^ 32) × (strings ≤ 65534 * count) }
    ensures { result ≡ batch_of count strings }
{
    if count == 0 {
        return 4;
    }
    16 + 10 * count + strings
}

// The header's regions.
pub fn regions_of(p: Parts) -> Regions
    requires { Small p }
    ensures { result ≡ regions_of p }
{
    let hashes = 52 + batch_size(p.texts, p.strings) + 8;
    let exports = hashes + 8 * p.keys;
    let imported = exports + 72 * p.entries;
    let size = imported + batch_size(p.names, p.spelt) + 4 * p.names;
    Regions {
        hashes,
        exports,
        imported,
        size,
    }
}

// Text numbers within the list, the header not too long.
fn check_whole(s: &[u8], p: Parts) -> Option<Parts>
    requires { Listed s.now p }
    ensures { Says s.now result }
{
    if p.texts <= be32_usize(s, 5) {
        return None;
    }
    let g = regions_of(p);
    if LONGEST_HEADER < g.size {
        return None;
    }
    let exports = &s[p.exports..p.exports + 40 * p.entries];
    check_exports(exports, p.texts).then_some(p)
}

// The imported names, behind the hashes' end, and nothing left over.
fn check_imported(s: &[u8], texts: Extent, hashes: usize, stop: usize) -> Option<Parts>
    requires { Tabled s.now texts.next texts.size hashes stop }
    ensures { Says s.now result }
{
    let count = be32_usize(s, stop);
    let names = sized_texts(s, stop + 4, count, 4)?;
    if names.next != s.len() {
        return None;
    }
    let p = Parts {
        texts: be32_usize(s, 13),
        strings: texts.size,
        exports: texts.next + 4,
        entries: be32_usize(s, texts.next),
        hashes: hashes + 4,
        keys: be32_usize(s, hashes),
        imported: stop + 4,
        names: count,
        spelt: names.size,
    };
    check_whole(s, p)
}

// The exports and the hashes, behind the texts' end.
fn check_tables(s: &[u8], texts: Extent) -> Option<Parts>
    requires { Begun s.now texts.next texts.size }
    ensures { Says s.now result }
{
    let n = s.len();
    let end = texts.next;
    if n - end < 4 {
        return None;
    }
    let exports = 40 * be32_usize(s, end) + 4;
    if n - end < exports + 4 {
        return None;
    }
    let hashes = end + exports;
    let stop = 8 * be32_usize(s, hashes) + 4;
    if n - hashes < stop + 4 {
        return None;
    }
    check_imported(s, texts, hashes, hashes + stop)
}

// The whole description. None: it is malformed.
pub fn check(s: &[u8]) -> Option<Parts>
    ensures { Says s.now result }
{
    let n = s.len();
    if n < 17 {
        return None;
    }
    if n - 4 != be32_usize(s, 0) {
        return None;
    }
    if s[4] != 1 {
        return None;
    }
    let texts = sized_texts(s, 17, be32_usize(s, 13), 0)?;
    check_tables(s, texts)
}
