// The path of a class: "package name, `.`, [outer rendered, `:`,] rendered", measured and written from the places of the names.
ghost use Rattle.std.specs.Prelude.{◌≡◌, ◌≤◌, length};
ghost use Rattle.base.specs.Output.{Wrote};
ghost use Rattle.batch.specs.Holds.{Holds};
ghost use Rattle.packages.specs.ClassPath.{path_bytes};
ghost use Rattle.packages.specs.Row.{base_at, RowHolds};

use super::names::put_behind;
use super::rows::Row;
use batch::places::Name;
use batch::texts::{place_len, put_place};

// How many bytes the path takes.
pub fn class_path_len(b: &[u8], home: Name, w: &Row) -> usize
    requires { Holds b.now home.place (base_at b.now home) × RowHolds b.now w.now }
    ensures { (result ≡ length (path_bytes b.now home w.now)) × (result ≤ 393269) }
{
    let first = place_len(b, home);
    let own = place_len(b, w.own);
    match w.outer {
        Some(u) => first + 1 + place_len(b, u) + 1 + own,
        None => first + 1 + own,
    }
}

// The path.
pub fn put_class_path(out: &mut [u8], b: &[u8], home: Name, w: &Row) -> usize
    requires { Holds b.now home.place (base_at b.now home) × RowHolds b.now w.now × (length (path_bytes b.now home w.now) ≤ length out.old) }
    ensures { Wrote out.old (path_bytes b.now home w.now) out.new result }
{
    let first = put_place(out, b, home);
    match w.outer {
        Some(u) => {
            let n = first + put_behind(&mut out[first..], b".", b, u);
            n + put_behind(&mut out[n..], b":", b, w.own)
        }
        None => first + put_behind(&mut out[first..], b".", b, w.own),
    }
}
