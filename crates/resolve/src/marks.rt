// Marks of rows: where the export of a row stands in the corpus, in steps of 72 bytes, and its kind as a candidate.
ghost use Rattle.std.specs.Prelude.{◌≡◌, ◌+◌, ◌*◌, ◌%◌, ◌^◌, ◌≤◌, ◌<◌, length, Some};
ghost use Rattle.base.specs.Number.{le_at};
ghost use Rattle.packages.specs.Kinds.{candidate_number, candidate_of};
ghost use Rattle.resolve.specs.Marks.{mark_of, step_at};
ghost use Rattle.resolve.specs.Rows.{row_at};

use super::rows::row_at;
use base::number::le32_usize;
use packages::rows::Candidate;

// Kept: a mark and a step are numbers. `marks_in` lists marks so, and they stand in the work buffer, so that `mark_at` would make a `Mark(m)` for
// `candidate_in` to take apart; `step_at` says a step so, and of a struct each export would have one made anew, as `Step { at: step.at + i }`.

// The step in which the exports of the package at a place of the corpus start, which stand so far behind its block's start.
pub fn step_of(at: usize, exports: usize) -> usize
    requires { at + 12 + exports < 2 ^ 64 }
    ensures { result ≡ step_at at exports }
{
    (at + 12 + exports) / 72
}

// The mark of a candidate of a kind that stands in a step.
pub fn mark_of(step: usize, kind: Candidate) -> usize
    requires { step < 2 ^ 29 }
    ensures { result ≡ mark_of step (candidate_number (Some kind)) }
{
    4 * step + usize::from(kind.number())
}

// The mark of row r.
pub fn mark_at(w: &[u8], r: usize) -> usize
    requires { 32 * (r + 1) ≤ length w.now }
    ensures { (result ≡ le_at 4 w.now (row_at w.now r + 28)) × (result < 2 ^ 32) }
{
    le32_usize(w, row_at(w, r) + 28)
}

// The kind that a mark tells, as a number.
pub fn kind_in(mark: usize) -> u8
    ensures { result ≡ mark % 4 }
{
    (mark % 4) as u8
}

// The kind of candidate that a mark tells.
pub fn candidate_in(mark: usize) -> Option<Candidate>
    ensures { result ≡ candidate_of (mark % 4) }
{
    Candidate::of(usize::from(kind_in(mark)))
}
