// The limits of a call (document 02, Q-5): with at most so many objects a path, and so a row, has a length that sums bear.
ghost use Rattle.std.specs.Prelude.{◌≤◌};

// How many lookups a class index may take, and how many objects a path may have.
#[derive(Clone, Copy)]
pub struct Limits {
    pub lookups: usize,
    pub objects: usize,
    pub ghost few: { objects ≤ 65 },
}
