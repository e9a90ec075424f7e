// What a report is written from.
ghost use Rattle.std.specs.Prelude.{◌≡◌, ◌*◌, ◌≤◌, length, take, drop};

use packages::site::Packages;

// Kept: clauses name these fields one by one, since the definitions are over lists: of a predicate over `Source` each law would say what its fields are.
// The packages of a corpus, its script block, the resolved work buffer with so many script objects in front and so many rows, and how many objects a path
// may have.
#[derive(Clone, Copy)]
pub struct Source<'a> {
    pub packages: Packages<'a>,
    pub script: &'a [u8],
    pub work: &'a [u8],
    pub objects: usize,
    pub rows: usize,
    pub limit: usize,
}

impl<'a> Source<'a> {
    // The script objects in the front of the work buffer.
    pub fn front(&self) -> &'a [u8]
        requires { 56 * self.now.objects ≤ length self.now.work.now }
        ensures { result.now ≡ take (56 * self.now.objects) self.now.work.now }
    {
        &self.work[..56 * self.objects]
    }

    // What stands behind them: classes and rows.
    pub fn rest(&self) -> &'a [u8]
        requires { 56 * self.now.objects ≤ length self.now.work.now }
        ensures { result.now ≡ drop (56 * self.now.objects) self.now.work.now }
    {
        &self.work[56 * self.objects..]
    }
}
