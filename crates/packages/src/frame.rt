// The corpus around its blocks (questions 1 and 2).
ghost use Rattle.std.specs.Prelude.{◌≡◌, ◌+◌, ◌≤◌, ◌<◌, length};
ghost use Rattle.base.specs.Number.{be_at};
ghost use Rattle.base.specs.OneMore.{nonzero};
ghost use Rattle.base.specs.Refusal.{numbered};
ghost use Rattle.meaning.specs.Frame.{framed};
ghost use Rattle.packages.specs.Framing.{package_end, packages_end, next_at, parts_answer, framed_as};
ghost use Rattle.packages.specs.Walk.{block_at};

use base::number::{be32_usize, be64};
use base::refusal::Refusal;

// Where the script block ends, which starts at 9; the package count stands there, the first package behind it.
#[derive(Clone, Copy)]
pub struct Frame {
    pub end: usize,
    pub count: usize,
}

// Where the package at a place ends, if it lies inside.
fn package_end(c: &[u8], at: usize) -> Option<usize>
    requires { at ≤ length c.now }
    ensures { result ≡ nonzero (package_end c.now at) }
{
    let left = c.len() - at;
    if left < 12 {
        return None;
    }
    let size = be32_usize(c, at + 8);
    if left - 12 < size {
        return None;
    }
    Some(at + 12 + size)
}

// Where so many packages from a place on end, if they lie inside.
fn packages_end(c: &[u8], from: usize, count: usize) -> Option<usize>
    requires { (0 < from) × (from ≤ length c.now) }
    ensures { result ≡ nonzero (packages_end c.now from count) }
{
    let mut at = from;
    for _ in 0..count {
        at = package_end(c, at)?;
    }
    Some(at)
}

// Behind the version: the script block and the packages.
fn parts(c: &[u8]) -> Result<Frame, Refusal>
    requires { 5 ≤ length c.now }
    ensures { numbered result ≡ parts_answer c.now }
{
    let n = c.len();
    if n < 9 {
        return Err(Refusal::Framing);
    }
    let size = be32_usize(c, 5);
    if n - 9 < size {
        return Err(Refusal::Framing);
    }
    let end = 9 + size;
    if n - end < 4 {
        return Err(Refusal::Framing);
    }
    let count = be32_usize(c, end);
    if packages_end(c, end + 4, count) == Some(n) {
        return Ok(Frame { end, count });
    }
    Err(Refusal::Framing)
}

// Questions 1, 2, 1.
pub fn read_frame(c: &[u8]) -> Result<Frame, Refusal>
    ensures { numbered result ≡ framed_as (framed c.now) }
{
    let n = c.len();
    if n < 5 {
        return Err(Refusal::Framing);
    }
    if n - 4 != be32_usize(c, 0) {
        return Err(Refusal::Framing);
    }
    if c[4] != 1 {
        return Err(Refusal::Version);
    }
    parts(c)
}

// The id of the package at a place.
pub fn id_at(c: &[u8], at: usize) -> u64
    requires { at + 12 ≤ length c.now }
    ensures { result ≡ be_at 8 c.now at }
{
    be64(c, at)
}

// Where the package at a place ends, and the next one starts.
pub fn next_at(c: &[u8], at: usize) -> usize
    requires { (at + 12 ≤ length c.now) × (next_at c.now at ≤ length c.now) }
    ensures { result ≡ next_at c.now at }
{
    at + 12 + be32_usize(c, at + 8)
}

// The block of the package at a place.
pub fn block_at(c: &[u8], at: usize) -> &[u8]
    requires { (at + 12 ≤ length c.now) × (next_at c.now at ≤ length c.now) }
    ensures { result.now ≡ block_at c.now at }
{
    let start = at + 12;
    let end = start + be32_usize(c, at + 8);
    &c[start..end]
}
