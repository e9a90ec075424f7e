// Packages of a corpus, and where they are.
ghost use Rattle.packages.specs.Walk.{Sites};

// Packages of a corpus, one behind another from a place on, which lie inside.
// Kept: that they are fewer than 2^32 is a `requires`, as much fewer as each function asks: as a ghost field it would ask more of some.
#[derive(Clone, Copy)]
pub struct Packages<'a> {
    pub corpus: &'a [u8],
    pub at: usize,
    pub count: usize,
    pub ghost sites: { Sites corpus.now at count },
}
