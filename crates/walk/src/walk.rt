// One walk over the packages: each block is checked, and as long as there is room its classes and rows are entered.
ghost use Rattle.std.specs.Prelude.{true, false, List, ◌++◌, ◌≡◌, ℕ, ◌+◌, ◌*◌, ◌^◌, ◌≤◌, ◌<◌, length, take, drop, Ok, Err};
ghost use Rattle.base.specs.Reading.{refused, gives, run_block};
ghost use Rattle.base.specs.Refusal.{number};
ghost use Rattle.base.specs.declared.refusal.Refused.{Refused};
ghost use Rattle.scriptblock.specs.Script.{Objects};
ghost use Rattle.zen.specs.Answers.{answer};
ghost use Rattle.zen.specs.Zen.{package_block};
ghost use Rattle.meaning.specs.Call.{read_from, refused_in};
ghost use Rattle.objects.specs.Work.{ObjectsIn};
ghost use Rattle.packages.specs.Framing.{parts_at};
ghost use Rattle.packages.specs.Package.{read_in, package_in};
ghost use Rattle.packages.specs.RefBytes.{ref_bytes};
ghost use Rattle.packages.specs.Row.{export_no, names_size, RowHolds};
ghost use Rattle.packages.specs.Walk.{AllRead};
ghost use Rattle.resolve.specs.Classes.{Classes};
ghost use Rattle.resolve.specs.Marks.{export_marks, marks_from, marks_of, marks_in};
ghost use Rattle.walk.specs.Found.{Found, head_size, with_export, with_exports, with_package, found_in, Linked, State};
ghost use Rattle.walk.specs.Steps.{with_row, with_own, opened_as, closed_as, visit_at, Visited, SomeState, Marked, row_most, head_most, Grown, Small};
ghost use Rattle.walk.specs.declared.walk.Census.{Census};
ghost use Rattle.walk.specs.declared.walk.Entering.TheVariants.{Open};

use super::script::ScriptObjects;
use base::refusal::Refused;
use batch::texts::place_len;
use packages::block::{Block, Package, PackageNotes};
use packages::frame::{block_at, id_at, next_at};
use packages::package::parts_of;
use packages::rows::{Row, names_len};
use packages::site::Packages;
use resolve::classes::{enter_class, is_class};
use resolve::marks::{mark_of, step_of};
use resolve::rows::put_words;
use table::entries::clear;
use zen::zen::{Layout, check_package};

// Kept: no `Result<Census, Short>`: where nothing more is entered the walk goes on, since every block is still checked and may be refused, so that `scan_block`
// and `scan_packages` would answer a `Result<Result<Census, Short>, Refused>`, and `Ok(l) if t.is_open() => Ok(scan_package(b, l, s, w, notes, v, t)), Ok(_) => Ok(t)`
// be `Ok(l) => Ok(match t { Ok(t) => scan_package(b, l, s, w, notes, v, t), short => short })`; bounds that hold in any state (`Small` of `scan_block`, `few` of
// `scan_packages`) would be said of a census inside both.
// Whether all that was found is entered (Open). Else nothing more is: there is no room (Full), or a class's key stands twice (Repeated, with its block).
#[derive(Clone, Copy, PartialEq, Eq)]
pub enum Entering {
    Open,
    Full,
    Repeated(u32),
}

// What was found so far: as long as all is entered, how many classes and rows, and how many bytes of report without the rows' classes and native
// classes.
#[derive(Clone, Copy)]
pub struct Census {
    pub state: Entering,
    pub classes: usize,
    pub rows: usize,
    pub size: usize,
}

impl Census {
    // Whether all is entered.
    fn is_open(&self) -> bool
        ensures { (result ≡ true → self.now.state ≡ Open) × (result ≡ false → self.now.state ≡ Open → ⊥) }
    {
        matches!(self.state, Entering::Open)
    }
}

// The package that the walk is at: its place in the corpus, its id, the number of its block.
#[derive(Clone, Copy)]
pub struct Visit {
    pub at: usize,
    pub id: u64,
    pub block: u32,
}

// How many bytes a row takes without its class and native class.
fn row_len(p: &Package, v: &Row) -> usize
    requires { RowHolds p.now.block.bytes.now v.now }
    ensures { (result ≡ 34 + names_size p.now.block.bytes.now v.now + length (ref_bytes p.now.block.bytes.now v.now.class)) × (result ≤ row_most) }
{
    let kind = p.block.parts.kind_of(v.class);
    34 + names_len(p.block.bytes, v) + p.reference_len(v.class, kind)
}

// How many bytes a section takes without its rows.
fn head_len(p: &Package) -> usize
    ensures { ((id : ℕ) → result ≡ head_size (package_in id p.now.block.bytes.now)) × (result ≤ head_most) }
{
    20 + place_len(p.block.bytes, p.home())
}

// All is entered.
fn opened(classes: usize, rows: usize, size: usize) -> Census
    ensures { result ≡ opened_as classes rows size }
{
    Census {
        state: Entering::Open,
        classes,
        rows,
        size,
    }
}

// Nothing more is entered.
fn closed(t: Census, state: Entering) -> Census
    ensures { result ≡ closed_as t state }
{
    Census { state, ..t }
}

// Keeps export i, which stands in a step of the corpus, if it is a candidate and there is room.
fn keep_row(
    p: &Package,
    w: &mut [u8],
    n: usize,
    id: u64,
    step: usize,
    i: usize,
    t: Census,
) -> Census
    requires export { i < p.now.block.parts.count }
    requires open_value { (t.state ≡ Open) × (64 * n ≤ length w.old) × (t.classes < 2 ^ 32) × (t.rows < 2 ^ 32) × (t.size < 2 ^ 60) × (step < 2 ^ 29) }
    ensures state { (c d : List ℕ) (o : Objects) (f : Found) → State c d o n f t w.old
        → State c d o n (with_row (package_in id p.now.block.bytes.now) i f) result w.new }
    ensures grown { (result.classes ≡ t.classes) × (result.rows ≤ t.rows + 1) × (result.size ≤ t.size + row_most) }
    ensures size { length w.new ≡ length w.old }
    ensures marks { (l : List ℕ) → Marked n l t w.old
        → Marked n (l ++ export_marks (read_in p.now.block.bytes.now) step (export_no p.now.block.bytes.now i)) result w.new }
{
    let size = 56 * n;
    let Some(kind) = p.candidate(i) else {
        return t;
    };
    if w.len() / 64 <= n + t.classes + t.rows {
        return closed(t, Entering::Full);
    }
    let v = p.row(i, Some(kind));
    let m = p.meaning(id, v.class);
    put_words(&mut w[size..], t.rows, m, mark_of(step, kind));
    let len = row_len(p, &v);
    opened(t.classes, t.rows + 1, t.size + len)
}

// Enters export i, which is a class, if there is room and no class before it has its key.
fn keep_class(p: &Package, w: &mut [u8], n: usize, v: Visit, i: usize, t: Census) -> Census
    requires export { (i < p.now.block.parts.count) × ((export_no p.now.block.bytes.now i).hash ≡ 0 → ⊥) }
    requires open_value { (t.state ≡ Open) × (64 * n ≤ length w.old) × Classes (2 * n) t.classes (drop (56 * n) w.old) × (0 < n)
        × (t.classes + 1 < 2 ^ 32) × (t.rows ≤ 2 ^ 32) }
    ensures state { (c d : List ℕ) (o : Objects) (f : Found) → Visited c v p.now.block.bytes.now → State c d o n f t w.old
        → State c d o n (with_own v.block (package_in v.id p.now.block.bytes.now) i f) result w.new }
    ensures grown { (result.classes ≤ t.classes + 1) × (result.rows ≡ t.rows) × (result.size ≡ t.size) }
    ensures size { length w.new ≡ length w.old }
    ensures marks { (c d : List ℕ) (o : Objects) (f : Found) (l : List ℕ) → Visited c v p.now.block.bytes.now → State c d o n f t w.old → Marked n l t w.old
        → Marked n l result w.new }
{
    let size = 56 * n;
    if w.len() / 64 <= n + t.classes + t.rows {
        return closed(t, Entering::Full);
    }
    if enter_class(p, &mut w[size..], 2 * n, t.classes, v.at, v.id, i) {
        return opened(t.classes + 1, t.rows, t.size);
    }
    closed(t, Entering::Repeated(v.block))
}

// Export i, which stands in a step of the corpus: its row, if it is a candidate, and its class, if it is one.
// Kept: the work buffer apart from the objects in it: of a struct with a `&mut` in it each of these functions would ensure, beside all that it does, that it
// still holds the same buffer, as `x.new.w.ghost_name ≡ x.old.w.ghost_name`. That its length stays is said of each for the same reason: no type says it.
// Kept: package, visit and step are parameters: `keep_row` reads id and step, `keep_class` place, id and block; of a struct each would take what it does not
// read. Bounds of a census are a `requires`: they hang on what is still to come (`row_most * count`), which a ghost field can't name.
fn scan_export(
    p: &Package,
    s: &ScriptObjects,
    w: &mut [u8],
    v: Visit,
    step: usize,
    i: usize,
    t: Census,
) -> Census
    requires export { i < p.now.block.parts.count }
    requires open_value { (t.state ≡ Open) × SomeState s.now.block.now s.now.count v p.now.block.bytes.now t w.old × (t.classes + 1 < 2 ^ 32) × (t.rows < 2 ^ 32)
        × (t.size < 2 ^ 60) × (step < 2 ^ 29) }
    ensures state { (c : List ℕ) (o : Objects) (f : Found) → Visited c v p.now.block.bytes.now → State c s.now.block.now o s.now.count f t w.old
        → State c s.now.block.now o s.now.count (with_export s.now.limit o v.block (package_in v.id p.now.block.bytes.now) i f) result w.new }
    ensures grown { Grown 1 t result }
    ensures size { length w.new ≡ length w.old }
    ensures marks { (l : List ℕ) → Marked s.now.count l t w.old
        → Marked s.now.count (l ++ export_marks (read_in p.now.block.bytes.now) step (export_no p.now.block.bytes.now i)) result w.new }
{
    let size = 56 * s.count;
    let r = keep_row(p, w, s.count, v.id, step, i, t);
    if !r.is_open() {
        return r;
    }
    let e = p.block.export(i);
    if is_class(s.block, &w[..size], e, s.limit) {
        return keep_class(p, w, s.count, v, i, r);
    }
    r
}

// All exports of a package, the first of which stands in a step of the corpus, as long as there is room.
fn scan_exports(
    p: &Package,
    s: &ScriptObjects,
    w: &mut [u8],
    v: Visit,
    step: usize,
    before: Census,
) -> Census
    requires some_state { SomeState s.now.block.now s.now.count v p.now.block.bytes.now before w.old × (before.classes + p.now.block.parts.count < 2 ^ 32)
        × (before.rows + p.now.block.parts.count < 2 ^ 32) × (before.size + row_most * p.now.block.parts.count < 2 ^ 60) × (step + p.now.block.parts.count < 2 ^ 29) }
    ensures state { (c : List ℕ) (o : Objects) (f : Found) → Visited c v p.now.block.bytes.now
        → State c s.now.block.now o s.now.count (with_exports s.now.limit o v.block (package_in v.id p.now.block.bytes.now) 0 f) before w.old
        → State c s.now.block.now o s.now.count (with_package s.now.limit o v.block (package_in v.id p.now.block.bytes.now) f) result w.new }
    ensures grown { Grown p.now.block.parts.count before result }
    ensures size { length w.new ≡ length w.old }
    ensures marks { (l : List ℕ) → Marked s.now.count l before w.old
        → Marked s.now.count (l ++ marks_from (read_in p.now.block.bytes.now) step (read_in p.now.block.bytes.now).exports) result w.new }
{
    let mut t = before;
    for i in 0..p.block.parts.count {
        if !t.is_open() {
            return t;
        }
        t = scan_export(p, s, w, v, step + i, i, t);
    }
    t
}

// A package that was accepted: its section and its exports.
fn scan_package(
    b: &[u8],
    l: Layout,
    s: &ScriptObjects,
    w: &mut [u8],
    notes: &mut PackageNotes,
    v: Visit,
    t: Census,
) -> Census
    requires b_value { answer (run_block package_block b.now) ≡ Ok l }
    requires open_value { (t.state ≡ Open) × SomeState s.now.block.now s.now.count v b.now t w.old × ((x : ℕ) × Small x t × (x + 12 + length b.now < 2 ^ 32 + 4)) }
    ensures state { (c : List ℕ) (o : Objects) (f : Found) → Visited c v b.now → State c s.now.block.now o s.now.count f t w.old
        → State c s.now.block.now o s.now.count (with_package s.now.limit o v.block (package_in v.id b.now) f) result w.new }
    ensures small { (x : ℕ) → Small x t → Small (x + 12 + length b.now) result }
    ensures size { length w.new ≡ length w.old }
    ensures marks { (l : List ℕ) → Marked s.now.count l t w.old → Marked s.now.count (l ++ marks_of v.at b.now) result w.new }
{
    let block = Block {
        bytes: b,
        parts: parts_of(l),
    };
    let p = Package::noted(block, notes);
    let before = opened(t.classes, t.rows, t.size + head_len(&p));
    let step = step_of(v.at, block.parts.exports);
    scan_exports(&p, s, w, v, step, before)
}

// A package: its block is checked, and as long as all is entered what it holds is too.
fn scan_block(
    b: &[u8],
    s: &ScriptObjects,
    w: &mut [u8],
    notes: &mut PackageNotes,
    v: Visit,
    t: Census,
) -> Result<Census, Refused>
    requires some_state { SomeState s.now.block.now s.now.count v b.now t w.old × ((x : ℕ) × Small x t × (x + 12 + length b.now < 2 ^ 32 + 4)) }
    ensures refused { (r : Refused) → result ≡ Err r → (r.block ≡ v.block) × (run_block package_block b.now ≡ refused (number r.why)) }
    ensures read { (t' : Census) → result ≡ Ok t' → run_block package_block b.now ≡ gives (read_in b.now) }
    ensures state { (t' : Census) (c : List ℕ) (o : Objects) (f : Found) → result ≡ Ok t' → Visited c v b.now → State c s.now.block.now o s.now.count f t w.old
        → State c s.now.block.now o s.now.count (with_package s.now.limit o v.block (package_in v.id b.now) f) t' w.new }
    ensures small { (t' : Census) (x : ℕ) → result ≡ Ok t' → Small x t → Small (x + 12 + length b.now) t' }
    ensures size { length w.new ≡ length w.old }
    ensures marks { (t' : Census) (l : List ℕ) → result ≡ Ok t' → Marked s.now.count l t w.old → Marked s.now.count (l ++ marks_of v.at b.now) t' w.new }
{
    match check_package(b) {
        Err(why) => Err(why.at(v.block)),
        Ok(l) if t.is_open() => Ok(scan_package(b, l, s, w, notes, v, t)),
        Ok(_) => Ok(t),
    }
}

// Package i, at a place of the corpus: the first is block 2.
fn visit_at(c: &[u8], at: usize, i: usize) -> Visit
    requires { (at + 12 ≤ length c.now) × (i + 2 < 2 ^ 32) }
    ensures { result ≡ visit_at c.now at i }
{
    Visit {
        at,
        id: id_at(c, at),
        block: (i + 2) as u32,
    }
}

// Checks packages, and enters what they hold: w has the linked script objects in front.
pub fn scan_packages(
    p: &Packages,
    s: &ScriptObjects,
    w: &mut [u8],
    notes: &mut PackageNotes,
) -> Result<Census, Refused>
    requires few { (p.now.count + 2 ≤ 2 ^ 32) × (length p.now.corpus.now < 2 ^ 32 + 4) }
    requires linked { Linked s.now.block.now s.now.count w.old × (length s.now.block.now < 2 ^ 32) }
    ensures refused { (r : Refused) → result ≡ Err r → read_from 2 (parts_at p.now.corpus.now p.now.at p.now.count) ≡ refused_in (number r.why) r.block }
    ensures all { (t : Census) → result ≡ Ok t → AllRead p.now.corpus.now p.now.at p.now.count }
    ensures state { (t : Census) (o : Objects) → result ≡ Ok t → ObjectsIn s.now.block.now o (take (56 * s.now.count) w.old)
        → State p.now.corpus.now s.now.block.now o s.now.count (found_in s.now.limit o p.now.corpus.now p.now.at p.now.count) t w.new }
    ensures size { length w.new ≡ length w.old }
    ensures few { (t : Census) → result ≡ Ok t → (t.rows < 2 ^ 32) × (t.size < 2 ^ 60) }
    ensures marks { (t : Census) → result ≡ Ok t → Marked s.now.count (marks_in p.now.corpus.now p.now.at p.now.count) t w.new }
{
    let size = 56 * s.count;
    clear(&mut w[size..], 2 * s.count);
    let mut t = opened(0, 0, 9);
    let mut place = p.at;
    for i in 0..p.count {
        let v = visit_at(p.corpus, place, i);
        t = scan_block(block_at(p.corpus, place), s, w, notes, v, t)?;
        place = next_at(p.corpus, place);
    }
    Ok(t)
}
