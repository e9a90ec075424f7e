// Objects entered into the table as they come.
ghost use Rattle.std.specs.Prelude.{◌≡◌, ◌+◌, ◌*◌, ◌^◌, ◌≤◌, ◌<◌, length, Ok, OnOk};
ghost use Rattle.base.specs.Refusal.{fault};
ghost use Rattle.text.specs.Utf8.{utf8};
ghost use Rattle.batch.specs.Holds.{name_at};
ghost use Rattle.batch.specs.Places.{place_at};
ghost use Rattle.scriptblock.specs.ScriptAnswers.{opened, fault_at};
ghost use Rattle.objects.specs.Work.{packed, described, Entered};

use base::refusal::Refusal;
use batch::notes::NotedNames;
use batch::places::{Name, Place};
use batch::texts::place_len;
use scriptblock::script::{Entry, Layout, check_entry, entry_in};
use table::entries::{add, clear, record_at};
use table::words::set32;

// Kept: that a block is shorter than 2^32 bytes is a `requires`, of `enter`, in link.rt, in walk, which calls them, and in verify's counts: NotedNames, ScriptBlock
// and walk's ScriptObjects are public, and a ghost field would ask it of all who make one. So is that a size is below 65536: Place is public, and `place_of`
// makes one of any columns.

// Twice a place's size, and 1 if it is UTF-16.
pub fn packed(p: Place) -> usize
    requires { p.size < 65536 }
    ensures { result ≡ packed p }
{
    2 * p.size + usize::from(p.wide)
}

// Fills in the record at a place.
fn describe(w: &mut [u8], at: usize, n: Name, len: usize)
    requires { (at + 44 ≤ length w.old) × (n.place.size < 65536) }
    ensures { w.new ≡ described at n.place n.number len w.old }
{
    set32(w, at + 28, n.place.start);
    set32(w, at + 32, packed(n.place));
    set32(w, at + 36, n.number as usize);
    set32(w, at + 40, len);
}

// Fills in the record at a place, of an entry whose name is one of the batch.
fn put_object(names: &NotedNames, w: &mut [u8], at: usize, e: Entry)
    requires { (e.index < names.now.names.count) × (at + 44 ≤ length w.old) }
    ensures { w.new ≡ described at (place_at names.now.block.now names.now.names e.index) e.number
        (length (utf8 (name_at names.now.block.now (place_at names.now.block.now names.now.names e.index) e.number))) w.old }
{
    let name = Name {
        place: names.place(e.index),
        number: e.number,
    };
    describe(w, at, name, place_len(names.block, name));
}

// Kept: a block that was opened and its layout come apart, here and above: its names are noted in between, so that a struct would be made anew, as
// `enter(&Opened { names, layout }, w)`.
// Enters the objects of the block that the names are of, unless one fails a question: 10, 11 or 12.
pub fn enter(names: &NotedNames, l: Layout, w: &mut [u8]) -> Result<(), Refusal>
    requires opened { (opened names.now.block.now ≡ Ok l) × (names.now.names ≡ l.names) }
    requires w_len { (length w.old ≡ 56 * l.count) × (length names.now.block.now < 2 ^ 32) }
    ensures fault { fault result ≡ fault_at names.now.block.now l }
    ensures entered { OnOk result (Entered names.now.block.now l l.count w.new) }
{
    let buckets = 3 * l.count;
    clear(w, buckets);
    for i in 0..l.count {
        let e = entry_in(names.block, l.entries + 32 * i);
        check_entry(e, l.names.count)?;
        if add(w, buckets, 44, i, 0, e.global).is_some() {
            return Err(Refusal::RepeatedObject);
        }
        put_object(names, w, record_at(buckets, 44, i), e);
    }
    Ok(())
}
