// A package header (zen.rs): the whole block.
ghost use Rattle.std.specs.Prelude.{◌≡◌, length};
ghost use Rattle.base.specs.Reading.{run_block, walk};
ghost use Rattle.base.specs.ReadingLaws.{out};
ghost use Rattle.base.specs.Refusal.{numbered};
ghost use Rattle.zen.specs.Zen.{content, header, package_block};
ghost use Rattle.zen.specs.Answers.{answer, Order};
ghost use Rattle.zen.specs.Lists.{names_in};

use super::imports::check_imports;
use super::lead::read_lead;
use super::summary::{Summary, in_order, read_summary};
use super::tables::{check_bulk, check_tables};
use base::refusal::Refusal;
use batch::names::{Names, read_batch};

// Where the parts of an accepted package are.
#[derive(Clone, Copy)]
pub struct Layout {
    pub size: usize,
    pub summary: Summary,
    pub names: Names,
    pub imported: Names,
}

// The lists of names of a package: its own, and the imported ones.
#[derive(Clone, Copy, PartialEq, Eq)]
pub enum NameList {
    Own,
    Imported,
}

impl Layout {
    // Where a list of names is.
    pub fn names_in(self, list: NameList) -> Names
        ensures { result ≡ names_in self list }
    {
        match list {
            NameList::Own => self.names,
            NameList::Imported => self.imported,
        }
    }
}

// Behind the summary.
fn check_content(s: &[u8], summary: Summary) -> Result<Layout, Refusal>
    requires { Order summary (length s.now) }
    ensures { numbered result ≡ answer (out (walk (content (length s.now) summary) s.now 52)) }
{
    let names = read_batch(s, 52)?;
    check_bulk(s, names.end, summary.hashes)?;
    check_tables(s, summary, names.count)?;
    let imported = check_imports(s, summary.imported, summary.index, names.count)?;
    Ok(Layout {
        size: s.len(),
        summary,
        names,
        imported,
    })
}

// Within the header size.
fn check_header(s: &[u8]) -> Result<Layout, Refusal>
    ensures { numbered result ≡ answer (out (walk (header (length s.now)) s.now 8)) }
{
    let summary = read_summary(s)?;
    if !in_order(summary, s.len()) {
        return Err(Refusal::OffsetOrder);
    }
    check_content(s, summary)
}

// The whole block.
pub fn check_package(b: &[u8]) -> Result<Layout, Refusal>
    ensures { numbered result ≡ answer (run_block package_block b.now) }
{
    let size = read_lead(b)?;
    if size < 8 {
        return Err(Refusal::Cut);
    }
    check_header(&b[..size])
}
