// Class and native class of a row, written as texts.
ghost use Rattle.std.specs.Prelude.{List, ◌++◌, ◌≡◌, ℕ, ◌+◌, ◌*◌, ◌≤◌, ◌<◌, length, drop, MatchOption};
ghost use Rattle.std.proofs.Math.Option.{none};
ghost use Rattle.text.specs.Name.{text_bytes};
ghost use Rattle.base.specs.Number.{be_bytes};
ghost use Rattle.base.specs.Output.{Wrote};
ghost use Rattle.table.specs.Words.{mid};
ghost use Rattle.scriptblock.specs.Script.{Objects};
ghost use Rattle.meaning.specs.Reference.{Ref};
ghost use Rattle.meaning.specs.Report.{or_unknown};
ghost use Rattle.meaning.specs.Scan.{Class};
ghost use Rattle.resolve.specs.Classes.{class_no, ClassesIn};
ghost use Rattle.resolve.specs.Rows.{limits_of};
ghost use Rattle.sections.specs.Written.{Put, Target, native_text, both_texts, BothPut, ClassRoom, NativeRoom, BothRoom};

use super::source::Source;
use base::output::{put_be32, put_bytes};
use objects::path::put_path;
use resolve::paths::put_class_path;
use resolve::rows::Led;

// A length or a count in 4 bytes: of a number beyond them its low bytes.
pub fn put_length(out: &mut [u8], n: usize) -> usize
    requires { 4 ≤ length out.old }
    ensures { Wrote out.old (be_bytes 4 n) out.new result }
{
    put_be32(out, (n % 4294967296) as u32)
}

// A text, `?` where it is unknown: how many bytes it takes with its length, and whether it is known.
// Kept: no Option, here and in Texts, since an unknown text takes bytes too: of an `Option<usize>` each caller would say `t.unwrap_or(5)`.
#[derive(Clone, Copy)]
pub struct Told {
    pub size: usize,
    pub known: bool,
}

// An unknown text.
fn put_unknown(out: &mut [u8]) -> Told
    requires { 5 ≤ length out.old }
    ensures { Put none out.old out.new result }
{
    put_be32(out, 1);
    out[4] = b'?';
    Told {
        size: 5,
        known: false,
    }
}

// The native class's text, composed.
fn compose_native(out: &mut [u8], src: &Source, l: Led) -> Told
    requires { NativeRoom src.now.script.now src.now.objects src.now.limit src.now.work.now l out.old }
    ensures { (c : List ℕ) (o : Objects) (xs : List Class) (lookups : ℕ) (r : Ref)
        → Target c src.now.script.now o src.now.objects xs lookups src.now.limit src.now.work.now r l
        → length (text_bytes (or_unknown (native_text (limits_of lookups src.now.limit) xs o r))) ≤ length out.old
        → Put (native_text (limits_of lookups src.now.limit) xs o r) out.old out.new result }
{
    let u = l.object;
    if u.is_missing() {
        return put_unknown(out);
    }
    match put_path(&mut out[4..], src.script, src.front(), u, src.limit) {
        None => put_unknown(out),
        Some(path) => {
            put_length(out, path.len);
            Told {
                size: 4 + path.len,
                known: true,
            }
        }
    }
}

// The texts that a row keeps in the work buffer, if it keeps any: its class's, if it is of the table, then its native class's, if it leads to an object.
fn kept_text(w: &[u8], l: Led) -> Option<&[u8]>
    requires { (l.size ≡ 0 → ⊥) → l.text + l.size ≤ length w.now }
    ensures { MatchOption result (l.size ≡ 0) (λ t. (l.size ≡ 0 → ⊥) × (t.now ≡ mid l.text l.size w.now)) }
{
    if l.size == 0 {
        return None;
    }
    Some(&w[l.text..l.text + l.size])
}

// The native class's text of a row without a class of the table, as the row keeps it, or composed.
fn put_native(out: &mut [u8], src: &Source, l: Led) -> Told
    requires { NativeRoom src.now.script.now src.now.objects src.now.limit src.now.work.now l out.old × (l.class ≡ 0) }
    ensures { (c : List ℕ) (o : Objects) (xs : List Class) (lookups : ℕ) (r : Ref)
        → Target c src.now.script.now o src.now.objects xs lookups src.now.limit src.now.work.now r l
        → length (text_bytes (or_unknown (native_text (limits_of lookups src.now.limit) xs o r))) ≤ length out.old
        → Put (native_text (limits_of lookups src.now.limit) xs o r) out.old out.new result }
{
    match kept_text(src.work, l) {
        None => compose_native(out, src, l),
        Some(text) => Told {
            size: put_bytes(out, text),
            known: true,
        },
    }
}

// The text of class i of the table behind the script objects.
fn put_class(out: &mut [u8], src: &Source, i: usize) -> usize
    requires { ClassRoom src.now.packages.corpus.now src.now.objects i src.now.work.now out.old }
    ensures { (xs : List Class) → ClassesIn src.now.packages.corpus.now (2 * src.now.objects) xs (drop (56 * src.now.objects) src.now.work.now) → i < length xs
        → Wrote out.old (text_bytes (class_no xs i).path) out.new result }
{
    let k = put_class_path(
        &mut out[4..],
        src.packages.corpus,
        src.rest(),
        2 * src.objects,
        i,
    );
    put_length(out, k) + k
}

// The first n bytes, once more behind themselves.
// Kept: a loop by hand: `copy_within` of a length that isn't known is a call of the C library's memmove, which an archive for C would need from outside.
fn put_again(out: &mut [u8], n: usize) -> usize
    requires { n + n ≤ length out.old }
    ensures { (old a : List ℕ) → Wrote old a out.old n → Wrote old (a ++ a) out.new result }
{
    for i in 0..n {
        out[n + i] = out[i];
    }
    n + n
}

// The native class's text, which the first n bytes are, once more behind them: as the row keeps it, or as it stands there.
fn put_second(out: &mut [u8], w: &[u8], l: Led, n: usize) -> usize
    requires { (n + n ≤ length out.old) × ((l.size ≡ 0 → ⊥) → (l.text + l.size ≤ length w.now) × (l.size ≡ n)) }
    ensures { (old a : List ℕ) → Wrote old a out.old n → ((l.size ≡ 0 → ⊥) → mid l.text l.size w.now ≡ a)
        → Wrote old (a ++ a) out.new result }
{
    match kept_text(w, l) {
        None => put_again(out, n),
        Some(text) => n + put_bytes(&mut out[n..], text),
    }
}

// Texts of a row: how many bytes they take, and whether class and native class, which are among them, are known.
#[derive(Clone, Copy)]
pub struct Texts {
    pub size: usize,
    pub class: bool,
    pub native: bool,
}

// The texts of class i of the table and of the native class: as the row keeps them, where it leads to no object the class's alone; or one after the other.
fn put_classed(out: &mut [u8], src: &Source, i: usize, l: Led) -> Texts
    requires { BothRoom src.now.packages.corpus.now src.now.script.now src.now.objects src.now.limit src.now.work.now l out.old × (l.class ≡ i + 1) }
    ensures { (o : Objects) (xs : List Class) (lookups : ℕ) (r : Ref)
        → Target src.now.packages.corpus.now src.now.script.now o src.now.objects xs lookups src.now.limit src.now.work.now r l
        → length (both_texts (limits_of lookups src.now.limit) xs o r) ≤ length out.old
        → BothPut (limits_of lookups src.now.limit) xs o r out.old out.new result }
{
    let Some(texts) = kept_text(src.work, l) else {
        let first = put_class(out, src, i);
        let t = compose_native(&mut out[first..], src, l);
        return Texts {
            size: first + t.size,
            class: true,
            native: t.known,
        };
    };
    let first = put_bytes(out, texts);
    if l.object.is_missing() {
        let t = put_unknown(&mut out[first..]);
        return Texts {
            size: first + t.size,
            class: true,
            native: t.known,
        };
    }
    Texts {
        size: first,
        class: true,
        native: true,
    }
}

// The texts of class and native class. Without a class of the table they are the same, and the path is worked out once.
pub fn put_both(out: &mut [u8], src: &Source, l: Led) -> Texts
    requires { BothRoom src.now.packages.corpus.now src.now.script.now src.now.objects src.now.limit src.now.work.now l out.old }
    ensures { (o : Objects) (xs : List Class) (lookups : ℕ) (r : Ref)
        → Target src.now.packages.corpus.now src.now.script.now o src.now.objects xs lookups src.now.limit src.now.work.now r l
        → length (both_texts (limits_of lookups src.now.limit) xs o r) ≤ length out.old
        → BothPut (limits_of lookups src.now.limit) xs o r out.old out.new result }
{
    match l.class.checked_sub(1) {
        None => {
            let t = put_native(out, src, l);
            Texts {
                size: put_second(out, src.work, l, t.size),
                class: t.known,
                native: t.known,
            }
        }
        Some(i) => put_classed(out, src, i, l),
    }
}
