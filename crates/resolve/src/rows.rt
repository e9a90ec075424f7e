// Rows in the work buffer: kept as they come, then resolved.
ghost use Rattle.std.specs.Prelude.{List, ◌≡◌, ℕ, ◌+◌, ◌*◌, ◌^◌, ◌≤◌, ◌<◌, length};
ghost use Rattle.base.specs.OneMore.{one_more};
ghost use Rattle.scriptblock.specs.Script.{Objects};
ghost use Rattle.meaning.specs.Reference.{Ref};
ghost use Rattle.meaning.specs.Report.{size, or_unknown};
ghost use Rattle.meaning.specs.Resolve.{path_text};
ghost use Rattle.meaning.specs.Scan.{Class};
ghost use Rattle.resolve.specs.Rows.{row_at, worded, columns_of, path_by, Tables, SomeTables, Leads, Kept, SomeKept, Resolution, limits_of, target_size, led_at};
ghost use Rattle.resolve.specs.Marks.{MarksKept};
ghost use Rattle.resolve.specs.Resolving.{SomeTarget, targeted, RowIn, SomeRow, RowResolved};

use super::chain::{Target, target_of, words_at};
use super::classes::class_len;
use super::limits::Limits;
use base::number::le32_usize;
use objects::object::{Object, columns_at, object_at};
use objects::path::path_len;
use packages::entries::Words;
use table::words::{set32, set64};

// Where row r stands: the rows stand at the buffer's end, the first one last.
pub fn row_at(w: &[u8], r: usize) -> usize
    requires { 32 * (r + 1) ≤ length w.now }
    ensures { result ≡ row_at w.now r }
{
    w.len() - 32 * (r + 1)
}

// Keeps what the class index of row r means, and its mark.
pub fn put_words(w: &mut [u8], r: usize, m: Words, mark: usize)
    requires { 32 * (r + 1) ≤ length w.old }
    ensures { w.new ≡ worded (row_at w.old r) m mark w.old }
{
    let at = row_at(w, r);
    set64(w, at, m.lo);
    set64(w, at + 8, m.hi);
    set32(w, at + 28, mark);
}

// Kept: a row's columns as they stand: of Options pool's `keep` would take text and size apart again, and each reader asks once,
// `l.class.checked_sub(1)` or `l.size == 0`.
// Where a resolved row leads: one more than the number of its class, or 0; the columns of its script object, all 0 where there is none; once the
// texts are pooled where that object's text stands in the work buffer, and its size, 0 where it isn't kept.
#[derive(Clone, Copy)]
pub struct Led {
    pub class: usize,
    pub object: Object,
    pub text: usize,
    pub size: usize,
}

// The columns of the script object that row r leads to. Where its text stands is not read: it may not be kept yet.
pub fn object_in(w: &[u8], r: usize) -> Object
    requires { 32 * (r + 1) ≤ length w.now }
    ensures { result ≡ (led_at w.now (row_at w.now r)).object }
{
    columns_at(w, row_at(w, r) + 4)
}

// Where row r leads.
pub fn led_at(w: &[u8], r: usize) -> Led
    requires { 32 * (r + 1) ≤ length w.now }
    ensures { result ≡ led_at w.now (row_at w.now r) }
{
    let at = row_at(w, r);
    Led {
        class: le32_usize(w, at),
        object: object_in(w, r),
        text: le32_usize(w, at + 20),
        size: le32_usize(w, at + 24),
    }
}

// The columns of a script object, all 0 for none.
fn object_of(w: &[u8], n: usize, object: Option<usize>) -> Object
    requires { SomeTables n w.now × (one_more object ≤ n) }
    ensures { (s b : List ℕ) (o : Objects) (xs : List Class) → Tables s b o n xs w.now → result ≡ columns_of b o (one_more object) }
{
    let size = 56 * n;
    match object {
        Some(i) => object_at(&w[..size], i),
        None => Object {
            outer: 0,
            start: 0,
            size: 0,
            number: 0,
        },
    }
}

// How many bytes its path takes, of at most so many objects, or `?`.
fn object_len(w: &[u8], n: usize, object: Option<usize>, m: Limits) -> usize
    requires { SomeTables n w.now × (one_more object ≤ n) }
    ensures { ((s b : List ℕ) (o : Objects) (xs : List Class) → Tables s b o n xs w.now
        → result ≡ size (or_unknown (path_text (path_by m.objects o (one_more object))))) × (result ≤ 8520850) }
{
    let Some(i) = object else {
        return 1;
    };
    let size = 56 * n;
    path_len(&w[..size], i, m.objects).map_or(1, |path| path.len)
}

// How many bytes class and native class of a row take that leads there. Where it has no class of the table both are the same text: the path of
// the script object that it names, or `?`.
fn target_len(w: &[u8], n: usize, t: Target, m: Limits) -> usize
    requires { SomeTarget n (one_more t.class) (one_more t.object) w.now }
    ensures { ((s b : List ℕ) (o : Objects) (xs : List Class) (lookups : ℕ) (ref : Ref) → Tables s b o n xs w.now
        → Leads xs o lookups ref (one_more t.class) (one_more t.object) → result ≡ target_size (limits_of lookups m.objects) xs o ref) × (result ≤ 17041700) }
{
    let native = object_len(w, n, t.object, m);
    let size = 56 * n;
    // Kept: a match: with `t.class.map_or(2 * native, |i| native + class_len(&w[size..], 2 * n, i))` the range, what `class_len` asks and the sum are one goal over
    // all that the closure takes along, a page long, which neither `search` nor `grind` proved; the match has a short one for each.
    match t.class {
        Some(i) => native + class_len(&w[size..], 2 * n, i),
        None => 2 * native,
    }
}

// One more than a number, or 0 for none.
// Kept: 0 is none, as a column has four lent bytes; `checked_sub(1)` undoes it.
fn kept(number: Option<usize>) -> usize
    requires { one_more number < 2 ^ 64 }
    ensures { result ≡ one_more number }
{
    number.map_or(0, |i| i + 1)
}

// Keeps where a row leads, at its place.
fn keep(w: &mut [u8], at: usize, class: usize, u: Object)
    requires { at + 20 ≤ length w.old }
    ensures { w.new ≡ targeted at class u w.old }
{
    set32(w, at, class);
    set32(w, at + 4, u.outer);
    set32(w, at + 8, u.start);
    set32(w, at + 12, u.size);
    set32(w, at + 16, u.number as usize);
}

// Resolves row r: how many bytes its class and its native class take.
fn resolve_row(w: &mut [u8], n: usize, r: usize, m: Limits) -> usize
    requires { SomeRow n r w.old }
    ensures { ((s b : List ℕ) (o : Objects) (xs : List Class) (ref : Ref) → RowIn s b o n xs r ref w.old
        → RowResolved (limits_of m.lookups m.objects) b o n xs r ref w.old w.new result) × (result ≤ 17041700) }
{
    let at = row_at(w, r);
    let t = target_of(w, n, words_at(w, at), m.lookups);
    let len = target_len(w, n, t, m);
    keep(w, at, kept(t.class), object_of(w, n, t.object));
    len
}

// Resolves the rows: how many bytes their classes and native classes take, within the limits.
pub fn resolve_all(w: &mut [u8], n: usize, rows: usize, m: Limits) -> usize
    requires { SomeKept n rows w.old × (rows < 2 ^ 32) }
    ensures is { (s b : List ℕ) (o : Objects) (xs : List Class) (refs : List Ref) → Kept s b o n xs refs w.old → length refs ≡ rows
        → Resolution (limits_of m.lookups m.objects) s b o n xs refs w.old w.new result }
    ensures few { result ≤ 17041700 * rows }
    ensures marks { MarksKept n rows w.old w.new }
{
    let mut total: usize = 0;
    for r in 0..rows {
        total += resolve_row(w, n, r, m);
    }
    total
}
