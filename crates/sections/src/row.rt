// A row, written.
ghost use Rattle.std.specs.Prelude.{List, ◌≡◌, ℕ, ◌+◌, ◌≤◌, ◌<◌, length};
ghost use Rattle.base.specs.Output.{Wrote};
ghost use Rattle.scriptblock.specs.Script.{Objects};
ghost use Rattle.meaning.specs.Reference.{ref_in};
ghost use Rattle.meaning.specs.Scan.{Class, candidate_kind};
ghost use Rattle.packages.specs.Kinds.{candidate_number, class_code};
ghost use Rattle.packages.specs.Meaning.{kind_by};
ghost use Rattle.packages.specs.Package.{read_in, package_in};
ghost use Rattle.packages.specs.Row.{export_no, row_in};
ghost use Rattle.resolve.specs.Rows.{limits_of};
ghost use Rattle.sections.specs.Written.{Target, row_for, RowRoom};
ghost use Rattle.sections.specs.Pieces.{kind_for, numbered_as, row_texts, row_front, row_no, reference_text, RowDue, TextsRoom, TextsPut};

use super::source::Source;
use super::texts::{Texts, put_both, put_length};
use packages::block::Package;
use packages::package::ClassKind;
use packages::rows::{Candidate, Row, put_names};
use resolve::rows::Led;

// A candidate's kind as its number.
fn kind_number(kind: Option<Candidate>) -> u8
    ensures { result ≡ candidate_number kind }
{
    kind.map_or(0, Candidate::number)
}

// The class kind, from what an index refers to.
fn class_kind(kind: ClassKind, known: bool) -> u8
    ensures { result ≡ kind_for (class_code kind) known }
{
    match kind {
        ClassKind::Null | ClassKind::Bad => kind.number(),
        _ => kind.number() + u8::from(!known),
    }
}

// 1 where a candidate of kind 1 has a number, else 0.
fn numbered(v: &Row) -> u8
    ensures { result ≡ numbered_as v.now }
{
    u8::from(v.kind == Some(Candidate::Variable) && v.own.number != 0)
}

// What stands before the texts.
fn put_front(out: &mut [u8], v: &Row, kind: ClassKind, t: Texts) -> usize
    requires { 10 + t.size ≤ length out.old }
    ensures { Wrote out.old (row_front v.now (class_code kind) t) out.new result }
{
    put_length(out, 6 + t.size);
    out[4] = 1;
    out[5] = kind_number(v.kind);
    out[6] = numbered(v);
    out[7] = class_kind(kind, t.class);
    out[8] = u8::from(t.class);
    out[9] = u8::from(t.native);
    10
}

// The text of a reference.
fn put_ref(out: &mut [u8], p: &Package, index: u64, kind: ClassKind) -> usize
    requires { (class_code kind ≡ kind_by p.now.block.parts index) × (length (reference_text p.now.block.bytes.now index) ≤ length out.old) }
    ensures { Wrote out.old (reference_text p.now.block.bytes.now index) out.new result }
{
    let n = p.put_reference(&mut out[4..], index, kind);
    put_length(out, n) + n
}

// The texts of a row: names, class, native class, reference.
fn put_texts(out: &mut [u8], src: &Source, p: &Package, v: &Row, kind: ClassKind, l: Led) -> Texts
    requires class_kind { class_code kind ≡ kind_by p.now.block.parts v.now.class }
    requires texts_room { TextsRoom src.now.packages.corpus.now src.now.script.now src.now.objects src.now.limit src.now.work.now p.now.block.bytes.now
        p.now.block.parts v.now l
        out.old }
    ensures { (o : Objects) (xs : List Class) (lookups id i : ℕ)
        → RowDue src.now.packages.corpus.now src.now.script.now src.now.objects src.now.limit src.now.work.now p.now.block.bytes.now p.now.block.parts v.now l
        o xs lookups id i
        → length (row_texts (row_no (limits_of lookups src.now.limit) xs o id p.now.block.bytes.now i)) ≤ length out.old
        → TextsPut (row_no (limits_of lookups src.now.limit) xs o id p.now.block.bytes.now i) out.old out.new result }
{
    let first = put_names(out, p.block.bytes, v);
    let both = put_both(&mut out[first..], src, l);
    let second = first + both.size;
    let size = second + put_ref(&mut out[second..], p, v.class, kind);
    Texts {
        size,
        class: both.class,
        native: both.native,
    }
}

// A row of a package: v is the candidate, l where its class index leads.
pub fn put_row(out: &mut [u8], src: &Source, p: &Package, v: &Row, l: Led) -> usize
    requires { RowRoom src.now.packages.corpus.now src.now.script.now src.now.objects src.now.limit src.now.work.now p.now.block.bytes.now p.now.block.parts
        v.now l out.old }
    ensures { (o : Objects) (xs : List Class) (lookups id i : ℕ) → i < p.now.block.parts.count
        → candidate_number v.now.kind ≡ candidate_kind (read_in p.now.block.bytes.now) (export_no p.now.block.bytes.now i)
        → v.now ≡ row_in p.now.block.bytes.now p.now.block.parts v.now.kind i
        → Target src.now.packages.corpus.now src.now.script.now o src.now.objects xs lookups src.now.limit src.now.work.now
        (ref_in (package_in id p.now.block.bytes.now) (export_no p.now.block.bytes.now i).class) l
        → length (row_for (limits_of lookups src.now.limit) xs o id p.now.block.bytes.now i) ≤ length out.old
        → Wrote out.old (row_for (limits_of lookups src.now.limit) xs o id p.now.block.bytes.now i) out.new result }
{
    let kind = p.block.parts.kind_of(v.class);
    let t = put_texts(&mut out[10..], src, p, v, kind, l);
    put_front(out, v, kind, t) + t.size
}
