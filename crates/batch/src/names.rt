// Name batches (names.rs): where the parts of a batch are, and whether it is one.
ghost use Rattle.std.specs.Prelude.{◌≡◌, ◌+◌, ◌*◌, ◌-◌, ◌≤◌, ◌<◌, length};
ghost use Rattle.base.specs.Reading.{walk};
ghost use Rattle.base.specs.ReadingRows.{cells};
ghost use Rattle.base.specs.Refusal.{numbered};
ghost use Rattle.batch.specs.Batch.{head_at, strings, body, some_names, batch};
ghost use Rattle.batch.specs.BatchAnswers.{checked, batched};

use base::number::{le32_usize, le64};
use base::refusal::Refusal;
use text::text::Part;

// Where the parts of a batch are: the end of the strings is the position after the batch.
#[derive(Clone, Copy)]
pub struct Names {
    pub count: usize,
    pub headers: usize,
    pub strings: usize,
    pub end: usize,
}

// A name's header.
#[derive(Clone, Copy)]
pub struct Head {
    pub wide: bool,
    pub size: usize,
}

pub fn read_head(s: &[u8], h: usize) -> Head
    requires { h + 2 ≤ length s.now }
    ensures { (result ≡ head_at s.now h) × (result.size < 65536) }
{
    let head = u16::from_be_bytes([s[h], s[h + 1]]);
    let wide = 0x8000 <= head;
    let n = usize::from(head % 0x8000);
    Head {
        wide,
        size: if wide { 2 * n } else { n },
    }
}

// Every name, and that the strings are used up: questions 5 to 7.
fn check_names(s: &[u8], n: Names) -> Result<(), Refusal>
    requires { (n.headers + 2 * n.count ≤ length s.now) × (n.strings ≤ n.«end») × (n.«end» ≤ length s.now) }
    ensures { numbered result ≡ checked (walk (strings (cells (head_at s.now) 2 n.headers n.count) (n.«end» - n.strings)) s.now n.strings) }
{
    let mut p = n.strings;
    for i in 0..n.count {
        let d = read_head(s, n.headers + 2 * i);
        if n.end - p < d.size {
            return Err(Refusal::NameOutside);
        }
        let next = p + d.size;
        if !text::utf16::is_text(Part {
            bytes: &s[p..next],
            wide: d.wide,
        }) {
            return Err(Refusal::IllFormedName);
        }
        p = next;
    }
    if p != n.end {
        return Err(Refusal::StringsLeft);
    }
    Ok(())
}

// Past the version: the hashes, the headers, the strings.
fn read_body(s: &[u8], at: usize, count: usize, room: usize) -> Result<Names, Refusal>
    requires { (at ≤ length s.now) × (count < 4294967296) × (room < 4294967296) }
    ensures { numbered result ≡ batched (walk (body count room) s.now at) }
{
    let end = s.len();
    let headers = at + 8 * count;
    if end < headers {
        return Err(Refusal::Cut);
    }
    let strings = headers + 2 * count;
    if end < strings {
        return Err(Refusal::Cut);
    }
    let next = strings + room;
    if end < next {
        return Err(Refusal::Cut);
    }
    let n = Names {
        count,
        headers,
        strings,
        end: next,
    };
    check_names(s, n)?;
    Ok(n)
}

// Past a count that is not 0: the length of the strings, the version, the body.
fn read_some(s: &[u8], at: usize, count: usize) -> Result<Names, Refusal>
    requires { (at ≤ length s.now) × (count < 4294967296) }
    ensures { numbered result ≡ batched (walk (some_names count) s.now at) }
{
    let end = s.len();
    let version = at + 4;
    if end < version {
        return Err(Refusal::Cut);
    }
    let room = le32_usize(s, at);
    let next = version + 8;
    if end < next {
        return Err(Refusal::Cut);
    }
    if le64(s, version) != 0xC1640000 {
        return Err(Refusal::HashVersion);
    }
    read_body(s, next, count, room)
}

// The batch at a position.
pub fn read_batch(s: &[u8], at: usize) -> Result<Names, Refusal>
    requires { at ≤ length s.now }
    ensures { numbered result ≡ batched (walk batch s.now at) }
{
    let next = at + 4;
    if s.len() < next {
        return Err(Refusal::Cut);
    }
    let count = le32_usize(s, at);
    if count == 0 {
        return Ok(Names {
            count: 0,
            headers: next,
            strings: next,
            end: next,
        });
    }
    read_some(s, next, count)
}
