// Where the names of a batch are.
ghost use Rattle.std.specs.Prelude.{◌≡◌, ◌+◌, ◌*◌, ◌≤◌, length};
ghost use Rattle.batch.specs.Places.{name_start};

use super::names::{Head, read_head};

// Where a name's text stands in its block.
#[derive(Clone, Copy)]
pub struct Place {
    pub start: usize,
    pub size: usize,
    pub wide: bool,
}

impl Place {
    // The place of a name, by where its text starts and by its header.
    pub fn at(start: usize, head: Head) -> Place
        ensures { result ≡ record { start = start; size = head.size; wide = head.wide } }
    {
        Place {
            start,
            size: head.size,
            wide: head.wide,
        }
    }
}

// A name: where the text of its base stands in its block, and its instance number.
#[derive(Clone, Copy)]
pub struct Name {
    pub place: Place,
    pub number: u32,
}

// Where the i-th name from a header and a string on starts.
pub fn name_start(s: &[u8], from: usize, first: usize, i: usize) -> usize
    requires { (from + 2 * i ≤ length s.now) × (name_start s.now from first i ≤ length s.now) }
    ensures { result ≡ name_start s.now from first i }
{
    let mut p = first;
    for k in 0..i {
        p += read_head(s, from + 2 * k).size;
    }
    p
}
