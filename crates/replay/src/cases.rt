// The list's cases replayed.
ghost use Rattle.std.specs.Prelude.{◌≤◌, IfOk};

use super::list::{Case, split_case};
use super::room;
use base::number::be32;
use std::io;

// Whether the call, with 64 lookups and 65 objects, answers so: the number, the report, and past it, or where it refuses, the buffer as it was.
fn answers(case: &Case, work: &mut [u8], report: &mut [u8]) -> bool {
    if capi::class_report(case.corpus, 64, 65, work, report) != case.answer {
        return false;
    }
    let n = case.report.len();
    if report.len() < n {
        return false;
    }
    report[..n] == case.report[..] && report[n..].iter().all(|b| *b == room::BLANK)
}

// The same with buffers of the case's lengths, if there is so much room. What an earlier case left in the work buffer stays there.
fn answers_within(case: &Case, work: &mut [u8]) -> bool {
    if (work.len() as u64) < case.work || (room::REPORT as u64) < case.room {
        return false;
    }
    let most = case.work as usize;
    let length = case.room as usize;
    let mut report = room::filled::<{ room::REPORT }>(room::BLANK);
    answers(case, &mut work[..most], &mut report[..length])
}

// Says which case differs, and how many do: one or none.
fn tell(rt: &HostRuntime, case: u64, same: bool) -> io::Result<u64>
    ensures { IfOk result (λ n. n ≤ 1) }
{
    if same {
        return Ok(0);
    }
    println!(rt; "case {case} differs")?;
    Ok(1)
}

// How many cases were replayed, and how many of them differ.
#[derive(Clone, Copy)]
pub struct Told {
    pub replayed: u64,
    pub differ: u64,
}

// Replays a list, with as much of the work buffer as each case wants. A case that is cut short before its report differs, one whose report is cut short is
// replayed against an empty report, and there are none behind either.
pub fn replay(rt: &HostRuntime, list: &[u8], work: &mut [u8]) -> io::Result<Told> {
    let mut differ: u64 = 0;
    if list.len() < 4 {
        return Ok(Told {
            replayed: 0,
            differ,
        });
    }
    let count = u64::from(be32(list, 0));
    let mut rest = &list[4..];
    for case in 0..count {
        if rest.is_empty() {
            return Ok(Told {
                replayed: case,
                differ,
            });
        }
        let Some((first, others)) = split_case(rest) else {
            differ += tell(rt, case, false)?;
            return Ok(Told {
                replayed: case + 1,
                differ,
            });
        };
        differ += tell(rt, case, answers_within(&first, work))?;
        rest = others;
    }
    Ok(Told {
        replayed: count,
        differ,
    })
}
