// The summary of a package header (zen.rs).
ghost use Rattle.std.specs.Prelude.{◌≡◌, ◌+◌, ◌-◌, ◌≤◌, ◌<◌, length};
ghost use Rattle.base.specs.Reading.{walk, rows};
ghost use Rattle.base.specs.Refusal.{numbered};
ghost use Rattle.batch.specs.BatchAnswers.{checked};
ghost use Rattle.zen.specs.Zen.{offset, summary, ordered, summary_at};
ghost use Rattle.zen.specs.Answers.{summed};

use base::number::{le32, le32_usize};
use base::refusal::Refusal;
use base::signed::le_size32;
use batch::reader;

#[derive(Clone, Copy)]
pub struct Summary {
    pub index: usize,
    pub number: u32,
    pub hashes: usize,
    pub imports: usize,
    pub exports: usize,
    pub bundles: usize,
    pub headers: usize,
    pub entries: usize,
    pub imported: usize,
}

// Seven offsets: questions 3 and 16.
fn check_offsets(s: &[u8], from: usize) -> Result<(), Refusal>
    requires { from ≤ length s.now }
    ensures { numbered result ≡ checked (walk (rows 7 offset) s.now from) }
{
    for i in 0..7usize {
        let at = from + 4 * i;
        if s.len() - at < 4 {
            return Err(Refusal::Cut);
        }
        le_size32(s, at).ok_or(Refusal::NegativeOffset)?;
    }
    Ok(())
}

// The summary, read without asking anything.
#[tactic(auto, unfolding(crate::specs::Zen::summary_at))]
pub fn summary_in(s: &[u8]) -> Summary
    requires { 52 ≤ length s.now }
    ensures { result ≡ summary_at s.now }
{
    Summary {
        index: reader::u30_le(s, 8),
        number: le32(s, 12),
        hashes: le32_usize(s, 24),
        imports: le32_usize(s, 28),
        exports: le32_usize(s, 32),
        bundles: le32_usize(s, 36),
        headers: le32_usize(s, 40),
        entries: le32_usize(s, 44),
        imported: le32_usize(s, 48),
    }
}

// The summary behind the header size.
pub fn read_summary(s: &[u8]) -> Result<Summary, Refusal>
    ensures { numbered result ≡ summed (walk summary s.now 8) }
{
    if s.len() < 24 {
        return Err(Refusal::Cut);
    }
    check_offsets(s, 24)?;
    Ok(summary_in(s))
}

// Question 17.
pub fn in_order(m: Summary, size: usize) -> bool
    ensures { result ≡ ordered m size }
{
    [
        52, m.hashes, m.imports, m.exports, m.bundles, m.headers, m.entries, m.imported, size,
    ]
    .is_sorted()
}
