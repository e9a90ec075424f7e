// Classes in the work buffer, entered as they come.
ghost use Rattle.std.specs.Prelude.{List, ◌≡◌, true, false, ℕ, ◌+◌, ◌*◌, ◌^◌, ◌≤◌, ◌<◌, length};
ghost use Rattle.base.specs.Number.{be_at};
ghost use Rattle.text.specs.Utf8.{utf8};
ghost use Rattle.scriptblock.specs.Script.{Objects};
ghost use Rattle.meaning.specs.Scan.{Class, is_class};
ghost use Rattle.objects.specs.Work.{ObjectsIn, LinkedOf};
ghost use Rattle.packages.specs.Row.{export_no, outer_start};
ghost use Rattle.packages.specs.Walk.{Site};
ghost use Rattle.table.specs.Table.{record_at};
ghost use Rattle.resolve.specs.Classes.{class_no, class_from, ClassesIn, Classes, Entered, Stands, described};

use base::index::{Kind, index_kind};
use base::number::le32_usize;
use batch::places::Name;
use packages::block::Package;
use packages::class_path::class_path_len;
use packages::entries::Words;
use packages::rows::Row;
use table::entries::{add, record_at};
use table::words::{set32, set64};
use zen::tables::Export;

// Whether an export is a class; w holds the script objects of the block s.
pub fn is_class(s: &[u8], w: &[u8], e: Export, limit: usize) -> bool
    requires { LinkedOf s.now w.now }
    ensures { (o : Objects) → ObjectsIn s.now o w.now → result ≡ is_class limit o e }
{
    if e.hash == 0 {
        return false;
    }
    let Kind::Script = index_kind(e.class) else {
        return false;
    };
    if let Kind::Null = index_kind(e.parent) {
        return false;
    }
    objects::class::is_class(s, w, e.class, limit)
}

// Fills in the record at a place: what the super means, the path's length, the package's place, the export's number, the names' starts. What chains are
// followed by stands in its first 44 bytes, so that mostly one line of the processor's cache has it.
fn describe(
    w: &mut [u8],
    r: usize,
    at: usize,
    i: usize,
    home: Name,
    row: &Row,
    m: Words,
    len: usize,
)
    requires { r + 64 ≤ length w.old }
    ensures { w.new ≡ described r at i home.place.start row.now.own.place.start (outer_start row.now) m len w.old }
{
    let outer = row.outer.unwrap_or(row.own);
    set64(w, r + 24, m.lo);
    set64(w, r + 32, m.hi);
    set32(w, r + 40, len);
    set32(w, r + 44, at);
    set32(w, r + 48, i);
    set32(w, r + 52, home.place.start);
    set32(w, r + 56, row.own.place.start);
    set32(w, r + 60, outer.place.start);
}

// Enters export i of the package p, which stands at a place of the corpus, as class k in n buckets, unless a class before it has its key: whether it
// was entered.
pub fn enter_class(
    p: &Package,
    w: &mut [u8],
    n: usize,
    k: usize,
    at: usize,
    id: u64,
    i: usize,
) -> bool
    requires export { (i < p.now.block.parts.count) × ((export_no p.now.block.bytes.now i).hash ≡ 0 → ⊥) }
    requires classes { Classes n k w.old × (0 < n) × (k + 1 < 2 ^ 32) × (record_at n 64 (k + 1) ≤ length w.old) }
    ensures new { result ≡ true → (s : List ℕ) (xs : List Class) → Site s at p.now.block.bytes.now → id ≡ be_at 8 s at → ClassesIn s n xs w.old → length xs ≡ k
        → Entered s n xs (class_from s at i) w.old w.new }
    ensures old { result ≡ false → (s : List ℕ) (xs : List Class) → Site s at p.now.block.bytes.now → id ≡ be_at 8 s at → ClassesIn s n xs w.old → length xs ≡ k
        → Stands xs (class_from s at i) }
    ensures size { length w.new ≡ length w.old }
{
    let e = p.block.export(i);
    if add(w, n, 64, k, id, e.hash).is_some() {
        return false;
    }
    let home = p.home();
    let row = p.row(i, None);
    let len = class_path_len(p.block.bytes, home, &row);
    let m = p.meaning(id, e.parent);
    describe(w, record_at(n, 64, k), at, i, home, &row, m, len);
    true
}

// The length of the path of class k; w is what stands behind the script objects, a table of n buckets.
pub fn class_len(w: &[u8], n: usize, k: usize) -> usize
    requires { (q : ℕ) × Classes n q w.now × (k < q) }
    ensures { ((s : List ℕ) (xs : List Class) → ClassesIn s n xs w.now → k < length xs → result ≡ length (utf8 (class_no xs k).path)) × (result ≤ 393269) }
{
    le32_usize(w, record_at(n, 64, k) + 40)
}
