// The path of a class, written from its record.
ghost use Rattle.std.specs.Prelude.{List, ◌<◌, length};
ghost use Rattle.base.specs.Output.{Wrote};
ghost use Rattle.text.specs.Utf8.{utf8};
ghost use Rattle.meaning.specs.Scan.{Class};
ghost use Rattle.resolve.specs.Classes.{class_no, ClassesIn, PathRoom};

use base::number::le32_usize;
use packages::block::Block;
use packages::frame::block_at;
use table::entries::record_at;

// The path of class k of the corpus c; w is what stands behind the script objects, a table of n buckets.
pub fn put_class_path(out: &mut [u8], c: &[u8], w: &[u8], n: usize, k: usize) -> usize
    requires { PathRoom c.now n k w.now out.old }
    ensures { (xs : List Class) → ClassesIn c.now n xs w.now → k < length xs → Wrote out.old (utf8 (class_no xs k).path) out.new result }
{
    let at = record_at(n, 64, k);
    let b = Block::of(block_at(c, le32_usize(w, at + 44)));
    let home = b.home_from(le32_usize(w, at + 52));
    let row = b.row_from(
        le32_usize(w, at + 48),
        le32_usize(w, at + 56),
        le32_usize(w, at + 60),
    );
    packages::class_path::put_class_path(out, b.bytes, home, &row)
}
