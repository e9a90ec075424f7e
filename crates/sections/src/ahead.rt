// Looking ahead. What rows are written from stands far apart: their exports, the texts that they keep, and where they keep none the records of their
// classes and the blocks of these. Of each some bytes are read for many rows together before they are written, so that the processor waits for all of them
// at once and not for one after the other. Nothing depends on what was read; it is stored where a note may stand, since the compiler drops what is read
// and not used.
ghost use Rattle.std.specs.Prelude.{◌+◌, ◌*◌, ◌≤◌, ◌<◌, length};

use super::source::Source;
use base::number::le32_usize;
use batch::notes::{NOTES, Notes};
use resolve::marks::mark_at;
use resolve::rows::{Led, led_at};

// How many rows are looked at together.
const GROUP: usize = 32;

// The byte at a place, or 0 behind the end.
// Kept: no Option, since nothing depends on what was read.
fn byte_at(b: &[u8], at: usize) -> u32 {
    b.get(at).copied().map_or(0, u32::from)
}

// Of so many bytes from a place on: one in each line of the processor's cache, and the last.
fn see_lines(b: &[u8], from: usize, size: usize) -> u32 {
    let end = from.saturating_add(size);
    let mut seen = byte_at(b, end.saturating_sub(1));
    for at in (from..end).step_by(64) {
        seen ^= byte_at(b, at);
    }
    seen
}

// Of what the path of a class is written from, whose record is at a place: both ends of its package's fields, and the package's name.
fn see_class(src: &Source, at: usize) -> u32
    requires { at + 64 ≤ length src.now.work.now }
{
    let package = le32_usize(src.work, at + 44);
    let name = le32_usize(src.work, at + 52);
    let c = src.packages.corpus;
    byte_at(c, package + 16) ^ byte_at(c, package + 67) ^ byte_at(c, package + 12 + name)
}

// Of the class that a row leads to, if it leads to one.
fn see_led(src: &Source, l: Led) -> u32 {
    let most = src.work.len() / 64;
    match l.class.checked_sub(1) {
        Some(i) if i < most && src.objects < most - i => see_class(src, 64 * (src.objects + i)),
        _ => 0,
    }
}

// Of what row r is written from: its export, which stands in the step of its mark, and the texts that it keeps, or where it keeps none its class: of the
// gap only what is kept was written.
fn see_row(src: &Source, r: usize) -> u32
    requires { 32 * (r + 1) ≤ length src.now.work.now }
{
    let l = led_at(src.work, r);
    let seen = see_lines(src.packages.corpus, 18 * mark_at(src.work, r), 72);
    if l.size == 0 {
        return seen ^ see_led(src, l);
    }
    seen ^ see_lines(src.work, l.text, l.size)
}

// Of what the rows from one up to another are written from.
fn see_rows(src: &Source, from: usize, to: usize) -> u32
    requires { 32 * to ≤ length src.now.work.now }
{
    let mut seen: u32 = 0;
    for r in from..to {
        seen ^= see_row(src, r);
    }
    seen
}

// Where the group of rows ends that starts at one, of so many.
fn group_end(from: usize, all: usize) -> usize
    ensures { result ≤ all }
{
    from.saturating_add(GROUP).min(all)
}

// Looks at the next group of rows, if few of those that were looked at are left to write from `row` on: which row to look at next.
pub fn look_ahead(src: &Source, row: usize, next: usize, notes: &mut Notes) -> usize
    requires { 32 * src.now.rows ≤ length src.now.work.now }
{
    if row < next && 16 < next - row {
        return next;
    }
    let end = group_end(next, src.rows);
    notes.starts[NOTES - 1] = see_rows(src, next, end);
    end
}
