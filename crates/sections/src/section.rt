// Sections and the report, each part written into the rest of the report buffer.
ghost use Rattle.std.specs.Prelude.{◌≡◌, ℕ, ◌+◌, ◌*◌, ◌^◌, ◌≤◌, ◌<◌, length, drop};
ghost use Rattle.base.specs.Output.{Wrote};
ghost use Rattle.base.specs.Reading.{gives, run_block};
ghost use Rattle.scriptblock.specs.Script.{Objects};
ghost use Rattle.zen.specs.Zen.{package_block};
ghost use Rattle.meaning.specs.Scan.{candidate_kind};
ghost use Rattle.packages.specs.Kinds.{candidate_number};
ghost use Rattle.packages.specs.Package.{package_in, read_in};
ghost use Rattle.packages.specs.Row.{export_no};
ghost use Rattle.packages.specs.Walk.{block_at, Site, AllRead};
ghost use Rattle.resolve.specs.Marks.{first_step, marks_in, MarksIn};
ghost use Rattle.resolve.specs.Rows.{limits_of};
ghost use Rattle.sections.specs.Sections.{How, head_of, front_of, behind_of, RowsMarked, ExportRoom, ExportPut, EachRoom, EachPut, RowsRoom, RowsPut, SectionRoom, SectionPut, SectionsRoom, SectionsPut};
ghost use Rattle.sections.specs.Written.{report_at, Ready, ReportRoom};

use super::ahead::look_ahead;
use super::row::put_row;
use super::source::Source;
use base::output::{put_be32, put_be64, put_byte};
use batch::texts::put_place_text;
use packages::block::{Block, Package, PackageNotes};
use packages::frame::{block_at, id_at, next_at};
use packages::rows::Candidate;
use resolve::marks::{candidate_in, mark_at, step_of};
use resolve::rows::led_at;

// How many bytes were written, and how many rows they have.
#[derive(Clone, Copy)]
pub struct Section {
    pub size: usize,
    pub rows: usize,
}

// With so many bytes in front.
fn behind(n: usize, z: Section) -> Section
    requires { n + z.size < 2 ^ 64 }
    ensures { result ≡ behind_of n z }
{
    Section {
        size: n + z.size,
        rows: z.rows,
    }
}

// Kept: step and first are parameters: `put_section` works out step, `put_sections` first, so that `Rows { step, first }` would be made anew for
// each package.

// The row of export i of a package, a candidate of that kind: row r is its.
fn put_export(
    out: &mut [u8],
    src: &Source,
    p: &Package,
    i: usize,
    kind: Option<Candidate>,
    r: usize,
) -> usize
    requires inside { i < p.now.block.parts.count }
    requires kind_value { candidate_number kind ≡ candidate_kind (read_in p.now.block.bytes.now) (export_no p.now.block.bytes.now i) }
    requires by_index { (id : ℕ) × (h : How)
        × ExportRoom src.now.packages.corpus.now src.now.script.now src.now.objects src.now.work.now src.now.limit r id p.now.block.bytes.now i out.old h }
    ensures { ExportPut src.now.packages.corpus.now src.now.script.now src.now.objects src.now.work.now src.now.limit r p.now.block.bytes.now i out.old out.new
        result }
{
    let v = p.row(i, kind);
    let l = led_at(src.rest(), r);
    put_row(out, src, p, &v, l)
}

// The rows of a package, the first of which is row `first` of all, if it has any: its exports start in a step, and a mark tells whose row it is.
fn put_each(out: &mut [u8], src: &Source, p: &Package, step: usize, first: usize) -> Section
    requires by_index { (id : ℕ) × (h : How)
        × EachRoom src.now.packages.corpus.now src.now.script.now src.now.objects src.now.work.now src.now.limit first id p.now.block.bytes.now out.old h }
    requires rows_marked { RowsMarked src.now.objects src.now.work.now p.now.block.bytes.now step first src.now.rows
        × (step + p.now.block.parts.count < 2 ^ 29) }
    ensures { EachPut src.now.packages.corpus.now src.now.script.now src.now.objects src.now.work.now src.now.limit first p.now.block.bytes.now out.old out.new
        result }
{
    let end = 4 * (step + p.block.parts.count);
    let mut size: usize = 0;
    for r in first..src.rows {
        let mark = mark_at(src.rest(), r);
        if end <= mark {
            return Section {
                size,
                rows: r - first,
            };
        }
        size += put_export(
            &mut out[size..],
            src,
            p,
            mark / 4 - step,
            candidate_in(mark),
            r,
        );
    }
    Section {
        size,
        rows: src.rows - first,
    }
}

// The rows of a package behind their count.
fn put_rows(out: &mut [u8], src: &Source, p: &Package, step: usize, first: usize) -> Section
    requires few { p.now.block.parts.count < 2 ^ 32 }
    requires by_index { (id : ℕ) × (h : How)
        × RowsRoom src.now.packages.corpus.now src.now.script.now src.now.objects src.now.work.now src.now.limit first id p.now.block.bytes.now out.old h }
    requires rows_marked { RowsMarked src.now.objects src.now.work.now p.now.block.bytes.now step first src.now.rows
        × (step + p.now.block.parts.count < 2 ^ 29) }
    ensures { RowsPut src.now.packages.corpus.now src.now.script.now src.now.objects src.now.work.now src.now.limit first p.now.block.bytes.now out.old out.new
        result }
{
    let z = put_each(&mut out[4..], src, p, step, first);
    let k = put_be32(out, z.rows as u32);
    behind(k, z)
}

// What stands before the rows: id, name, export count.
fn put_head(out: &mut [u8], p: &Package, id: u64) -> usize
    requires { (p.now.block.parts.count < 2 ^ 32) × (length (head_of (package_in id p.now.block.bytes.now)) ≤ length out.old) }
    ensures { Wrote out.old (head_of (package_in id p.now.block.bytes.now)) out.new result }
{
    let home = p.home();
    let k = put_be64(out, id);
    let n = k + put_place_text(&mut out[k..], p.block.bytes, home);
    n + put_be32(&mut out[n..], p.block.parts.count as u32)
}

// The section of the package at a place, whose first row is row `first` of all, if it has any.
fn put_section(
    out: &mut [u8],
    src: &Source,
    at: usize,
    first: usize,
    notes: &mut PackageNotes,
) -> Section
    requires site { Site src.now.packages.corpus.now at (block_at src.now.packages.corpus.now at)
        × (run_block package_block (block_at src.now.packages.corpus.now at) ≡ gives (read_in (block_at src.now.packages.corpus.now at))) }
    requires section_room { (h : How)
        × SectionRoom src.now.packages.corpus.now src.now.script.now src.now.objects src.now.work.now src.now.limit first at out.old h }
    requires rows_marked { RowsMarked src.now.objects src.now.work.now (block_at src.now.packages.corpus.now at) (first_step src.now.packages.corpus.now at)
        first src.now.rows }
    ensures is { SectionPut src.now.packages.corpus.now src.now.script.now src.now.objects src.now.work.now src.now.limit first at out.old out.new result }
{
    let b = Block::of(block_at(src.packages.corpus, at));
    let p = Package::noted(b, notes);
    let k = put_head(out, &p, id_at(src.packages.corpus, at));
    let step = step_of(at, b.parts.exports);
    let z = put_rows(&mut out[k..], src, &p, step, first);
    behind(k, z)
}

// The sections of the packages: how many bytes they take.
fn put_sections(out: &mut [u8], src: &Source, notes: &mut PackageNotes) -> usize
    requires read { AllRead src.now.packages.corpus.now src.now.packages.at src.now.packages.count }
    requires sections_room { (h : How)
        × SectionsRoom src.now.packages.corpus.now src.now.script.now src.now.objects src.now.work.now src.now.limit src.now.packages.at src.now.packages.count
        out.old h }
    requires marks_in { MarksIn (marks_in src.now.packages.corpus.now src.now.packages.at src.now.packages.count) (drop (56 * src.now.objects) src.now.work.now)
        × (length (marks_in src.now.packages.corpus.now src.now.packages.at src.now.packages.count) ≡ src.now.rows) }
    ensures { SectionsPut src.now.packages.corpus.now src.now.script.now src.now.objects src.now.work.now src.now.limit src.now.packages.at
        src.now.packages.count out.old out.new result }
{
    let mut size: usize = 0;
    let mut rows: usize = 0;
    let mut ahead: usize = 0;
    let mut at = src.packages.at;
    for _ in 0..src.packages.count {
        ahead = look_ahead(src, rows, ahead, &mut notes.names);
        let z = put_section(&mut out[size..], src, at, rows, notes);
        size += z.size;
        rows += z.rows;
        at = next_at(src.packages.corpus, at);
    }
    size
}

// What stands before the sections: how many bytes follow, version, package count.
fn put_front(out: &mut [u8], size: u32, count: u32)
    requires { 9 ≤ length out.old }
    ensures { Wrote out.old (front_of size count) out.new 9 }
{
    put_be32(out, size);
    put_byte(&mut out[4..], 1);
    put_be32(&mut out[5..], count);
}

// The report of the packages.
pub fn put_report(out: &mut [u8], src: &Source, notes: &mut PackageNotes) -> usize
    requires read { AllRead src.now.packages.corpus.now src.now.packages.at src.now.packages.count × (src.now.packages.count < 2 ^ 32) }
    requires report_room { ReportRoom src.now.packages.corpus.now src.now.script.now src.now.objects src.now.packages.at src.now.packages.count src.now.limit
        src.now.work.now out.old }
    requires marks_in { MarksIn (marks_in src.now.packages.corpus.now src.now.packages.at src.now.packages.count) (drop (56 * src.now.objects) src.now.work.now)
        × (length (marks_in src.now.packages.corpus.now src.now.packages.at src.now.packages.count) ≡ src.now.rows) }
    ensures { (o : Objects) (lookups : ℕ) → Ready src.now.packages.corpus.now src.now.script.now o src.now.objects src.now.packages.at src.now.packages.count
        lookups src.now.limit src.now.work.now
        → length (report_at (limits_of lookups src.now.limit) o src.now.packages.corpus.now src.now.packages.at src.now.packages.count) ≤ length out.old
        → Wrote out.old (report_at (limits_of lookups src.now.limit) o src.now.packages.corpus.now src.now.packages.at src.now.packages.count) out.new result }
{
    let size = put_sections(&mut out[9..], src, notes);
    put_front(out, (size + 5) as u32, src.packages.count as u32);
    size + 9
}
