// The rows, gone through once: each keeps where the texts stand that it leads to, and rows that lead to one class, or without one to one script object,
// share them.
ghost use Rattle.std.specs.Prelude.{List, ◌≡◌, true, ℕ, ◌+◌, ◌*◌, ◌-◌, ◌^◌, ◌≤◌, ◌<◌, length, take};
ghost use Rattle.scriptblock.specs.Script.{Objects};
ghost use Rattle.meaning.specs.Reference.{Ref};
ghost use Rattle.meaning.specs.Scan.{Class};
ghost use Rattle.resolve.specs.Marks.{MarksKept};
ghost use Rattle.resolve.specs.Rows.{row_at, led_at, Resolved};
ghost use Rattle.pool.specs.Pool.{Stood, Left, State, Before, noted, TextPut, TextsPut, Classed, Gap, RowStood, Roomy, Pooled};

use super::compose::{compose, compose_class};
use base::number::le32_usize;
use objects::object::Object;
use resolve::limits::Limits;
use resolve::rows::{led_at, object_in, row_at};
use table::entries::clear;
use table::words::set32;
use text::plain::put_plain;

// How many slots there are: one for each row, but not more than twice as many as script objects and classes, and one.
fn slots_of(n: usize, rows: usize) -> usize
    requires { n < 2 ^ 62 }
    ensures { (0 < rows → 0 < result) × (result ≤ rows) }
{
    rows.min(2 * n + 1)
}

// Kept: slots are row numbers in lent bytes, a map by hand: nothing may be allocated.
// What stays as it is while the rows are gone through: the corpus, the script block, how many script objects it has, how many classes and rows there are,
// the limits of the call; where the gap between classes and rows starts, and how many slots stand there, each with a row's number.
#[derive(Clone, Copy)]
struct Pooling<'a> {
    corpus: &'a [u8],
    block: &'a [u8],
    n: usize,
    classes: usize,
    rows: usize,
    limits: Limits,
    gap: usize,
    slots: usize,
    ghost behind: { gap ≡ 64 * (n + classes) },
    ghost few: { (0 < rows → 0 < slots) × (slots ≤ rows) },
}

impl<'a> Pooling<'a> {
    // With gap and slots worked out.
    fn of(
        corpus: &'a [u8],
        block: &'a [u8],
        n: usize,
        classes: usize,
        rows: usize,
        limits: Limits,
    ) -> Pooling<'a>
        requires { 64 * (n + classes) < 2 ^ 64 }
        ensures { (result.corpus ≡ corpus.entry) × (result.block ≡ block.entry) × (result.n ≡ n) × (result.classes ≡ classes) × (result.rows ≡ rows)
            × (result.limits ≡ limits) }
    {
        Pooling {
            corpus,
            block,
            n,
            classes,
            rows,
            limits,
            gap: 64 * (n + classes),
            slots: slots_of(n + classes, rows),
        }
    }
}

// One more than the number of the class that row r leads to, or 0.
fn class_in(w: &[u8], r: usize) -> usize
    requires { 32 * (r + 1) ≤ length w.now }
    ensures { result ≡ (led_at w.now (row_at w.now r)).class }
{
    le32_usize(w, row_at(w, r))
}

// Whether a row leads to no class and to no object.
fn is_nowhere(class: usize, u: Object) -> bool
    ensures { (result ≡ true → (class ≡ 0) × (u.outer ≡ 0)) × (class ≡ 0 → u.outer ≡ 0 → result ≡ true) }
{
    class == 0 && u.is_missing()
}

// What a row's slot goes by: its class, or without one its script object.
fn slot_key(class: usize, u: Object) -> usize
    ensures { ((class ≡ 0 → ⊥) → result ≡ class) × (class ≡ 0 → result ≡ u.start) }
{
    if class == 0 {
        return u.start;
    }
    class
}

// The row before row r that the slot names, if it leads to the same class and to the object u. A slot that was not set yet names row 0, which is looked at
// as any other.
fn before(w: &[u8], slot: usize, r: usize, class: usize, u: Object) -> Option<usize>
    requires { (slot + 4 ≤ length w.now) × (32 * (r + 1) ≤ length w.now) }
    ensures { Before w.now r class u result }
{
    let k = le32_usize(w, slot);
    (k < r && class_in(w, k) == class && object_in(w, k) == u).then_some(k)
}

// Row r keeps texts.
fn keep(w: &mut [u8], r: usize, text: usize, size: usize)
    requires { 32 * (r + 1) ≤ length w.old }
    ensures { w.new ≡ noted (row_at w.old r) text size w.old }
{
    let at = row_at(w, r);
    set32(w, at + 20, text);
    set32(w, at + 24, size);
}

// The texts of the class and of the object u, composed one behind the other, where both are short: how many bytes. Without an object the class's alone.
fn compose_both(
    out: &mut [u8; 512],
    p: &Pooling,
    w: &[u8],
    class: usize,
    u: Object,
) -> Option<usize>
    requires { Classed p.now.corpus.now p.now.n p.now.classes w.now × (class ≤ p.now.classes)
        × ((u.outer ≡ 0 → ⊥) → Stood p.now.block.now (take (56 * p.now.n) w.now) u) × (56 * p.now.n ≤ length w.now) }
    ensures { TextsPut p.now.corpus.now p.now.block.now p.now.n p.now.classes p.now.limits.objects class u w.now out.new result }
{
    let front = 56 * p.n;
    let k = compose_class(out, p.corpus, &w[front..], 2 * p.n, class)?;
    if u.is_missing() {
        return Some(k);
    }
    let m = compose(&mut out[k..], p.block, &w[..front], u, p.limits.objects)?;
    Some(k + m)
}

// The texts of the class and of the object u from a place on, where they are short and stand before the rows: how many bytes. Else nothing is written.
// Kept: `put_plain`, whether or not they are ASCII: of what is written out here the compiler sees that `texts` lies apart, and makes of its loops calls of the
// C library's memcpy, which an archive for C would need from outside.
fn put_texts(p: &Pooling, w: &mut [u8], free: usize, class: usize, u: Object) -> Option<usize>
    requires { Classed p.now.corpus.now p.now.n p.now.classes w.old × (class ≤ p.now.classes)
        × ((u.outer ≡ 0 → ⊥) → Stood p.now.block.now (take (56 * p.now.n) w.old) u) × (56 * p.now.n ≤ free) × (free + 32 * p.now.rows ≤ length w.old) }
    ensures { TextPut p.now.corpus.now p.now.block.now p.now.n p.now.classes p.now.limits.objects p.now.rows free class u w.old w.new result }
{
    let room = w.len() - 32 * p.rows - free;
    let mut texts = [0u8; 512];
    let k = compose_both(&mut texts, p, &*w, class, u)?;
    if room < k || free > u32::MAX as usize {
        return None;
    }
    put_plain(&mut w[free..], &texts[..k]);
    Some(k)
}

// Row r: up to where texts then stand, which stood up to `free`.
fn pool_row(p: &Pooling, w: &mut [u8], r: usize, free: usize) -> usize
    requires { Gap p.now.n p.now.classes p.now.gap p.now.slots p.now.rows r free w.old
        × RowStood p.now.corpus.now p.now.block.now p.now.n p.now.classes r w.old }
    ensures within { (free ≤ result) × (result + 32 * p.now.rows ≤ length w.old) }
    ensures is { (v : List ℕ)
        → State p.now.corpus.now p.now.block.now p.now.n p.now.classes p.now.limits.objects p.now.gap p.now.rows (p.now.gap + 4 * p.now.slots) free r v w.old
        → State p.now.corpus.now p.now.block.now p.now.n p.now.classes p.now.limits.objects p.now.gap p.now.rows (p.now.gap + 4 * p.now.slots) result (r + 1) v
        w.new }
{
    let u = object_in(w, r);
    let class = class_in(w, r);
    if is_nowhere(class, u) {
        keep(w, r, 0, 0);
        return free;
    }
    let slot = p.gap + 4 * (slot_key(class, u) % p.slots);
    if let Some(k) = before(w, slot, r, class, u) {
        let t = led_at(w, k);
        keep(w, r, t.text, t.size);
        return free;
    }
    set32(w, slot, r);
    let Some(size) = put_texts(p, w, free, class, u) else {
        keep(w, r, 0, 0);
        return free;
    };
    keep(w, r, free, size);
    free + size
}

// Sets the slots to 0, since `before` also reads one that no row has set yet. Of a row its class and its object are read, which resolving wrote, and where its
// texts stand only once it keeps them: nothing is read of the work buffer that was not written.
fn clear_slots(p: &Pooling, w: &mut [u8])
    requires { p.now.gap + 64 * p.now.rows ≤ length w.old }
    ensures { Left p.now.gap p.now.rows w.old w.new }
{
    clear(&mut w[p.gap..], p.slots);
}

// The rows, one after the other, with slots that are set to 0 before.
fn pool_rows(p: &Pooling, w: &mut [u8])
    requires { Roomy p.now.corpus.now p.now.block.now p.now.n p.now.classes p.now.rows w.old }
    ensures is { (o : Objects) (xs : List Class) (lookups : ℕ) (refs : List Ref)
        → Resolved p.now.corpus.now p.now.block.now o p.now.n xs lookups refs w.old → length xs ≡ p.now.classes → length refs ≡ p.now.rows
        → Pooled p.now.corpus.now p.now.block.now o p.now.n xs lookups p.now.limits.objects refs w.new }
    ensures marks { MarksKept p.now.n p.now.rows w.old w.new }
{
    let mut free = p.gap + 4 * p.slots;
    for r in 0..p.rows {
        free = pool_row(p, w, r, free);
    }
}

// The texts that the rows of the corpus c lead to, with so many classes in the table and n script objects of the block s, each path of at most so many
// objects as the limits say; a row's texts are kept if they are short and the gap has room for them.
pub fn pool_texts(
    c: &[u8],
    s: &[u8],
    w: &mut [u8],
    n: usize,
    classes: usize,
    rows: usize,
    m: Limits,
)
    requires { Roomy c.now s.now n classes rows w.old }
    ensures is { (o : Objects) (xs : List Class) (lookups : ℕ) (refs : List Ref) → Resolved c.now s.now o n xs lookups refs w.old
        → length xs ≡ classes → length refs ≡ rows → Pooled c.now s.now o n xs lookups m.objects refs w.new }
    ensures marks { MarksKept n rows w.old w.new }
{
    let p = Pooling::of(c, s, n, classes, rows, m);
    clear_slots(&p, w);
    pool_rows(&p, w);
}
