// Pieces written one behind another to the front of a lent buffer, each by its number.
ghost use Rattle.std.specs.Prelude.{◌≤◌, List, ℕ, length};
ghost use Rattle.base.specs.Output.{Wrote};
ghost use Rattle.header.specs.Pieces.{pieces, Puts};

// So many pieces, each written to the front of what is left of the buffer. Returns how many bytes they are.
pub fn put_pieces<F: Fn(&mut [u8], usize) -> usize>(out: &mut [u8], count: usize, put: F) -> usize
    requires { (b : ℕ → List ℕ) × Puts F.Fn put b count × (length (pieces b count) ≤ length out.old) }
    ensures { (b : ℕ → List ℕ) → Puts F.Fn put b count → Wrote out.old (pieces b count) out.new result }
{
    let mut n = 0;
    for i in 0..count {
        n += put(&mut out[n..], i);
    }
    n
}
