// The calls as C sees them (document 01): each slice is a pointer and a length.

#![tactic(auto)]

ghost use Rattle.claims.specs.Claims.{Called};
ghost use Rattle.claims.specs.Header as Header;
ghost use Rattle.claims.specs.Verify as Verify;

use base::refusal::Refusal;
use limits::limits_of;

mod limits; // question 29

// The class report of a corpus, within so many lookups and objects. What `work` holds in the end is free.
#[unsafe(no_mangle)]
pub extern "C" fn class_report(
    corpus: &[u8],
    lookups: u32,
    objects: u32,
    work: &mut [u8],
    report: &mut [u8],
) -> u64
    ensures { Called corpus.now lookups objects work.old report.old result report.new }
{
    let Some(m) = limits_of(lookups, objects) else {
        return Refusal::Limits.at(0).number();
    };
    report::call::class_report(corpus, work, report, m)
}

// A build's own hashes (document 02, Q-2): its counts, and a flag for each package. `work` may have any length, and the answer is the same; with twice
// the corpus's length it is found in little more than linear time. What `work` holds in the end is free.
#[unsafe(no_mangle)]
pub extern "C" fn class_verify(corpus: &[u8], work: &mut [u8], out: &mut [u8]) -> u64
    ensures { Verify.Called corpus.now out.old result out.new }
{
    verify::call::class_verify(corpus, work, out)
}

// The package header that a description in house form describes (document 02, Q-4).
#[unsafe(no_mangle)]
pub extern "C" fn class_header(description: &[u8], header: &mut [u8]) -> u64
    ensures { Header.Called description.now header.old result header.new }
{
    header::call::class_header(description, header)
}
