// Bulk bytes, public hashes, import map and exports of a package header (zen.rs).
ghost use Rattle.std.specs.Prelude.{◌≡◌, ◌+◌, ◌*◌, ◌-◌, ◌≤◌, ◌<◌, length};
ghost use Rattle.base.specs.Reading.{walk};
ghost use Rattle.base.specs.ReadingRows.{cells};
ghost use Rattle.base.specs.Refusal.{numbered};
ghost use Rattle.batch.specs.BatchAnswers.{checked};
ghost use Rattle.zen.specs.Zen.{bulk, export_at, named, tables};
ghost use Rattle.zen.specs.Answers.{Order};

use super::summary::Summary;
use base::number::{le32, le64};
use base::refusal::Refusal;
use base::signed::le_size64;
use batch::reader;

#[derive(Clone, Copy)]
pub struct Export {
    pub index: usize,
    pub number: u32,
    pub outer: u64,
    pub class: u64,
    pub parent: u64,
    pub hash: u64,
}

// Questions 3, 18, 3, 19.
pub fn check_bulk(s: &[u8], at: usize, stop: usize) -> Result<(), Refusal>
    requires { at ≤ length s.now }
    ensures { numbered result ≡ checked (walk (bulk stop) s.now at) }
{
    let end = s.len();
    if end - at < 8 {
        return Err(Refusal::Cut);
    }
    let size = le_size64(s, at).ok_or(Refusal::NegativeBulk)? as usize;
    let from = at + 8;
    if end - from < size {
        return Err(Refusal::Cut);
    }
    if from + size != stop {
        return Err(Refusal::BulkEnd);
    }
    Ok(())
}

// The export at a position.
#[tactic(auto, unfolding(crate::specs::Zen::export_at))]
pub fn export_in(s: &[u8], at: usize) -> Export
    requires { at + 72 ≤ length s.now }
    ensures { result ≡ export_at s.now at }
{
    Export {
        index: reader::u30_le(s, at + 16),
        number: le32(s, at + 20),
        outer: le64(s, at + 24),
        class: le64(s, at + 32),
        parent: le64(s, at + 40),
        hash: le64(s, at + 56),
    }
}

// Each export's name is in the batch.
fn check_exports(s: &[u8], from: usize, n: usize, count: usize) -> bool
    requires { from + 72 * n ≤ length s.now }
    ensures { result ≡ named count (cells (export_at s.now) 72 from n) }
{
    (0..n).all(|i| reader::u30_le(s, from + 72 * i + 16) < count)
}

// Questions 20, 20, 21, 10.
pub fn check_tables(s: &[u8], m: Summary, count: usize) -> Result<(), Refusal>
    requires { Order m (length s.now) }
    ensures { numbered result ≡ checked (walk (tables m count) s.now m.hashes) }
{
    if (m.imports - m.hashes) % 8 != 0 || (m.exports - m.imports) % 8 != 0 {
        return Err(Refusal::Multiples);
    }
    let region = m.bundles - m.exports;
    if region % 72 != 0 {
        return Err(Refusal::ExportMultiples);
    }
    if !check_exports(s, m.exports, region / 72, count) {
        return Err(Refusal::NameIndex);
    }
    Ok(())
}
