// The header written from a checked description, and the call (27, 28).
ghost use Rattle.std.specs.Prelude.{◌≡◌, ◌≤◌, length, MatchResult};
ghost use Rattle.base.specs.Answer.{refusal};
ghost use Rattle.base.specs.Find.{flat};
ghost use Rattle.base.specs.Number.{le_bytes};
ghost use Rattle.base.specs.Output.{Wrote};
ghost use Rattle.base.specs.Refusal.{number};
ghost use Rattle.written.specs.HeaderBytes.{imported_bytes, content_bytes, header_of};
ghost use Rattle.meaning.specs.Call.{number_of, buffer_after};
ghost use Rattle.header.specs.Places.{description_at};
ghost use Rattle.header.specs.Parts.{Whole, parts_of, regions_of, summary_words, tables_bytes};
ghost use Rattle.description.specs.Call.{header_answer};

use super::check::{Parts, Regions, check, regions_of};
use super::little::{put_le32, put_le64};
use super::names::Texts;
use super::pieces::put_pieces;
use super::tables::{put_exports, put_hashes, put_numbers};
use base::number::be32;
use base::refusal::Refusal;

// A description that was checked: its bytes, its parts, and the regions of its header.
#[derive(Clone, Copy)]
struct Plan<'a> {
    s: &'a [u8],
    parts: Parts,
    regions: Regions,
    ghost whole: { Whole s.now },
    ghost parts_are: { parts ≡ parts_of s.now },
    ghost regions_are: { regions ≡ regions_of (parts_of s.now) },
}

impl Plan<'_> {
    // The summary: thirteen numbers of 4 bytes.
    fn put_summary(&self, out: &mut [u8]) -> usize
        requires { 52 ≤ length out.old }
        ensures { Wrote out.old (flat (le_bytes 4) (summary_words self.now.s.now self.now.regions)) out.new result }
    {
        let g = self.regions;
        let hashes = g.hashes as u32;
        let exports = g.exports as u32;
        let imported = g.imported as u32;
        let numbers = [
            0,
            g.size as u32,
            be32(self.s, 5),
            be32(self.s, 9),
            0,
            0,
            hashes,
            exports,
            exports,
            imported,
            imported,
            imported,
            imported,
        ];
        put_pieces(out, numbers.len(), |out, i| put_le32(out, numbers[i]))
    }

    // The bulk size, which is 0, hashes and exports.
    fn put_tables(&self, out: &mut [u8]) -> usize
        requires { length (tables_bytes (description_at self.now.s.now)) ≤ length out.old }
        ensures { Wrote out.old (tables_bytes (description_at self.now.s.now)) out.new result }
    {
        let p = self.parts;
        let a = put_le64(out, 0);
        let b = a + put_hashes(&mut out[a..], &self.s[p.hashes..p.hashes + 8 * p.keys]);
        b + put_exports(
            &mut out[b..],
            &self.s[p.exports..p.exports + 40 * p.entries],
        )
    }

    // The imported names: a batch, then their numbers.
    fn put_imported(&self, out: &mut [u8]) -> usize
        requires { length (imported_bytes (description_at self.now.s.now).imported) ≤ length out.old }
        ensures { Wrote out.old (imported_bytes (description_at self.now.s.now).imported) out.new result }
    {
        let names = Texts {
            s: self.s,
            from: self.parts.imported,
            count: self.parts.names,
            more: 4,
        };
        let a = names.put_batch(out, self.parts.spelt);
        a + put_numbers(&mut out[a..], names)
    }

    // What follows the summary.
    fn put_content(&self, out: &mut [u8]) -> usize
        requires { length (content_bytes (description_at self.now.s.now)) ≤ length out.old }
        ensures { Wrote out.old (content_bytes (description_at self.now.s.now)) out.new result }
    {
        let texts = Texts {
            s: self.s,
            from: 17,
            count: self.parts.texts,
            more: 0,
        };
        let a = texts.put_batch(out, self.parts.strings);
        let b = a + self.put_tables(&mut out[a..]);
        b + self.put_imported(&mut out[b..])
    }

    // The header.
    fn put_header(&self, out: &mut [u8]) -> usize
        requires { length (header_of (description_at self.now.s.now)) ≤ length out.old }
        ensures { Wrote out.old (header_of (description_at self.now.s.now)) out.new result }
    {
        let a = self.put_summary(out);
        a + self.put_content(&mut out[a..])
    }
}

// How much is written of a description's header, or what it is refused for: nothing is written before both questions are asked.
fn answer(description: &[u8], header: &mut [u8]) -> Result<usize, Refusal>
    ensures { MatchResult result (λ n. n ≡ number_of (header_answer description.now (length header.old)))
        (λ r. refusal (number r) 0 ≡ number_of (header_answer description.now (length header.old)))
        × (header.new ≡ buffer_after (header_answer description.now (length header.old)) header.old) }
{
    let parts = check(description).ok_or(Refusal::Malformed)?;
    let plan = Plan {
        s: description,
        parts,
        regions: regions_of(parts),
    };
    if header.len() < plan.regions.size {
        return Err(Refusal::HeaderRoom);
    }
    Ok(plan.put_header(header))
}

// The call: a refusal is of no block.
// Kept: the number that C sees: of a Result capi would make it, by this same match.
pub fn class_header(description: &[u8], header: &mut [u8]) -> u64
    ensures { (result ≡ number_of (header_answer description.now (length header.old)))
        × (header.new ≡ buffer_after (header_answer description.now (length header.old)) header.old) }
{
    match answer(description, header) {
        Ok(n) => n as u64,
        Err(why) => why.at(0).number(),
    }
}
