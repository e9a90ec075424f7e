// The recorded list taken apart: data/README.md has its layout.
ghost use Rattle.std.specs.Prelude.{◌≡◌, true, false, MatchOption};
ghost use Rattle.base.specs.Number.{be_at};
ghost use Rattle.replay.specs.Parts.{part, behind, cut, numbers, report_in, rest_of, case_cut};

use base::number::{be32_usize, be64};

// A case: a corpus, the lengths of the work buffer and of the report buffer, the number that the call returns, and the report.
#[derive(Clone, Copy)]
pub struct Case<'a> {
    pub corpus: &'a [u8],
    pub work: u64,
    pub room: u64,
    pub answer: u64,
    pub report: &'a [u8],
}

// A corpus or a report, which is a 4-byte length and so many bytes, and what stands behind it, unless the list is cut short.
fn split_part<'a>(list: &'a [u8]) -> Option<(&'a [u8], &'a [u8])>
    ensures { MatchOption result (cut list.now ≡ true)
        (λ r. (cut list.now ≡ false) × (r.0.now ≡ part list.now) × (r.1.now ≡ behind list.now)) }
{
    if list.len() < 4 {
        return None;
    }
    let size = be32_usize(list, 0);
    list[4..].split_at_checked(size)
}

// The first case of a list and what stands behind it, unless the list is cut short before the report. A report that is cut short counts as empty, with
// nothing behind it.
pub fn split_case<'a>(list: &'a [u8]) -> Option<(Case<'a>, &'a [u8])>
    ensures { MatchOption result (case_cut list.now ≡ true)
        (λ r. (case_cut list.now ≡ false) × (r.0.corpus.now ≡ part list.now)
        × (r.0.work ≡ be_at 8 (numbers list.now) 0) × (r.0.room ≡ be_at 8 (numbers list.now) 8)
        × (r.0.answer ≡ be_at 8 (numbers list.now) 16) × (r.0.report.now ≡ report_in list.now)
        × (r.1.now ≡ rest_of list.now)) }
{
    let (corpus, numbers) = split_part(list)?;
    let (_, reported) = numbers.split_at_checked(24)?;
    let (report, rest) = split_part(reported).unwrap_or((&[], &[]));
    let case = Case {
        corpus,
        work: be64(numbers, 0),
        room: be64(numbers, 8),
        answer: be64(numbers, 16),
        report,
    };
    Some((case, rest))
}
