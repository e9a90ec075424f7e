// The script block (script.rs).
ghost use Rattle.std.specs.Prelude.{◌≡◌, ◌+◌, ◌*◌, ◌≤◌, ◌<◌, length, get_or, Ok, Err, MatchResult};
ghost use Rattle.base.specs.NumberLaws.{Bytes};
ghost use Rattle.base.specs.Reading.{run};
ghost use Rattle.base.specs.Refusal.{number, numbered, fault};
ghost use Rattle.scriptblock.specs.Script.{script};
ghost use Rattle.scriptblock.specs.ScriptAnswers.{opened, entry_at, fault_of, fresh_at, fault_at, script_answer, entries_of, no_entry};

use base::index::{Kind, index_kind};
use base::number::{le32, le64};
use base::refusal::Refusal;
use base::signed::le_size32;
use batch::names::{Names, read_batch};
use batch::reader;

// An entry: its mapped name, its global index, its outer.
#[derive(Clone, Copy)]
pub struct Entry {
    pub index: usize,
    pub number: u32,
    pub global: u64,
    pub outer: u64,
}

// Where the parts of a script block are.
#[derive(Clone, Copy)]
pub struct Layout {
    pub names: Names,
    pub count: usize,
    pub entries: usize,
}

// The questions before the entries: 3 to 9.
pub fn open_script(b: &[u8]) -> Result<Layout, Refusal>
    ensures { numbered result ≡ opened b.now }
{
    let names = read_batch(b, 0)?;
    let at = names.end;
    if b.len() - at < 4 {
        return Err(Refusal::Cut);
    }
    let Some(count) = le_size32(b, at) else {
        return Err(Refusal::NegativeCount);
    };
    let entries = at + 4;
    if ((b.len() - entries) as u64) / 32 < count {
        return Err(Refusal::CountTooLarge);
    }
    Ok(Layout {
        names,
        count: count as usize,
        entries,
    })
}

// The entry at a position.
pub fn entry_in(b: &[u8], at: usize) -> Entry
    requires { at + 32 ≤ length b.now }
    ensures { result ≡ entry_at b.now at }
{
    Entry {
        index: reader::u30_le(b, at),
        number: le32(b, at + 4),
        global: le64(b, at + 8),
        outer: le64(b, at + 16),
    }
}

// The questions of an entry by itself: 10 and 11.
pub fn check_entry(e: Entry, names: usize) -> Result<(), Refusal>
    ensures { fault result ≡ fault_of e names }
{
    if names <= e.index {
        return Err(Refusal::NameIndex);
    }
    match index_kind(e.global) {
        Kind::Script => Ok(()),
        _ => Err(Refusal::NotAnObject),
    }
}

// Whether none of the first n entries has this global index: 12, by looking at each.
// Kept: a loop, here and in `find`: of `(0..n).all(|i| le64(b, from + 32 * i + 8) != global)` the compiler asks for the range's end before each entry, which
// takes 1.4 to 1.8 of the time.
fn is_fresh(b: &[u8], from: usize, n: usize, global: u64) -> bool
    requires { from + 32 * n ≤ length b.now }
    ensures { result ≡ fresh_at b.now from n global }
{
    for i in 0..n {
        if le64(b, from + 32 * i + 8) == global {
            return false;
        }
    }
    true
}

// The questions of the entries, in order: 10, 11, 12.
fn check_entries(b: &[u8], l: Layout) -> Result<(), Refusal>
    requires { l.entries + 32 * l.count ≤ length b.now }
    ensures { fault result ≡ fault_at b.now l }
{
    for i in 0..l.count {
        let e = entry_in(b, l.entries + 32 * i);
        check_entry(e, l.names.count)?;
        if !is_fresh(b, l.entries, i, e.global) {
            return Err(Refusal::RepeatedObject);
        }
    }
    Ok(())
}

// The whole block, with no memory besides it.
pub fn check_script(b: &[u8]) -> Result<Layout, Refusal>
    ensures { numbered result ≡ script_answer (run script 0 b.now) }
{
    let l = open_script(b)?;
    check_entries(b, l)?;
    if l.entries + 32 * l.count < b.len() {
        return Err(Refusal::EntriesLeft);
    }
    Ok(l)
}

// A block that passed the check, and where its parts are.
#[derive(Clone, Copy)]
pub struct ScriptBlock<'a> {
    pub bytes: &'a [u8],
    pub layout: Layout,
    pub ghost accepted: { script_answer (run script 0 bytes.now) ≡ Ok layout },
    pub ghost fits: { Bytes bytes.now },
}

impl<'a> ScriptBlock<'a> {
    // The block, or the question that it fails.
    pub fn open(bytes: &'a [u8]) -> Result<ScriptBlock<'a>, Refusal>
        ensures { MatchResult result (λ s. s.bytes ≡ bytes.entry) (λ r. script_answer (run script 0 bytes.entry.now) ≡ Err (number r)) }
    {
        let layout = check_script(bytes)?;
        Ok(ScriptBlock { bytes, layout })
    }

    // Entry i.
    pub fn entry(&self, i: usize) -> Entry
        requires { i < length (entries_of (run script 0 self.now.bytes.now)) }
        ensures { result ≡ get_or (entries_of (run script 0 self.now.bytes.now)) i no_entry }
    {
        entry_in(self.bytes, self.layout.entries + 32 * i)
    }
}
