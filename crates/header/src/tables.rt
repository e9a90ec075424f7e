// Hashes, exports and the numbers of imported names, written to the front of a lent buffer. Each function returns how many bytes it wrote.
ghost use Rattle.std.specs.Prelude.{◌≡◌, ◌+◌, ◌/◌, ◌≤◌, length};
ghost use Rattle.base.specs.Find.{flat};
ghost use Rattle.base.specs.Number.{be_at, le_bytes};
ghost use Rattle.base.specs.Output.{Wrote};
ghost use Rattle.base.specs.ReadingRows.{cells};
ghost use Rattle.written.specs.HeaderBytes.{export_bytes};
ghost use Rattle.header.specs.Places.{imported_from, export_in};
ghost use Rattle.header.specs.RegionLaws.{number_bytes};

use super::little::{put_le32, put_le64};
use super::names::{Texts, next_text};
use super::pieces::put_pieces;
use base::number::{be32, be64};

// Kept: hashes, exports and the numbers of an array by number, here and in call.rt, since `put_pieces` is the loop of all four: over an iterator,
// `put_pieces(out, hashes.chunks_exact(8), |out, hash| put_le64(out, be64(hash, 0)))`, its contract would say what any iterator gives one by one, and each call prove
// that of its own.

// Hashes, which stand in 8 bytes each.
pub fn put_hashes(out: &mut [u8], hashes: &[u8]) -> usize
    requires { length (flat (le_bytes 8) (cells (be_at 8 hashes.now) 8 0 (length hashes.now / 8))) ≤ length out.old }
    ensures { Wrote out.old (flat (le_bytes 8) (cells (be_at 8 hashes.now) 8 0 (length hashes.now / 8))) out.new result }
{
    put_pieces(
        out,
        hashes.len() / 8,
        |out, i| put_le64(out, be64(hashes, 8 * i)),
    )
}

// The export at a place: of its nine numbers of 8 bytes, the third is the name.
fn put_export(out: &mut [u8], s: &[u8], at: usize) -> usize
    requires { (at + 40 ≤ length s.now) × (length (export_bytes (export_in s.now at)) ≤ length out.old) }
    ensures { Wrote out.old (export_bytes (export_in s.now at)) out.new result }
{
    let numbers = [
        0,
        0,
        u64::from(be32(s, at)) + u64::from(be32(s, at + 4)) * 4294967296,
        be64(s, at + 8),
        be64(s, at + 16),
        be64(s, at + 24),
        0,
        be64(s, at + 32),
        0,
    ];
    put_pieces(out, numbers.len(), |out, i| put_le64(out, numbers[i]))
}

// Exports, which stand in 40 bytes each.
pub fn put_exports(out: &mut [u8], exports: &[u8]) -> usize
    requires { length (flat export_bytes (cells (export_in exports.now) 40 0 (length exports.now / 40))) ≤ length out.old }
    ensures { Wrote out.old (flat export_bytes (cells (export_in exports.now) 40 0 (length exports.now / 40))) out.new result }
{
    put_pieces(
        out,
        exports.len() / 40,
        |out, i| put_export(out, exports, 40 * i),
    )
}

// The numbers of imported names, each behind its text.
pub fn put_numbers(out: &mut [u8], names: Texts) -> usize
    requires { (names.more ≡ 4) × (length (flat number_bytes (imported_from names.s.now names.from names.count)) ≤ length out.old) }
    ensures { Wrote out.old (flat number_bytes (imported_from names.entry.s.now names.entry.from names.entry.count)) out.new result }
{
    let mut n = 0;
    let mut at = names.from;
    for _ in 0..names.count {
        let end = next_text(names.s, at, 0);
        n += put_le32(&mut out[n..], be32(names.s, end));
        at = end + 4;
    }
    n
}
