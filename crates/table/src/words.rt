// Numbers written to a lent buffer, little-endian; base's number.rt reads them.
ghost use Rattle.std.specs.Prelude.{◌≡◌, ◌+◌, ◌≤◌, length};
ghost use Rattle.table.specs.Words.{stored};

// Kept: two functions of one line for the two widths: over a const width each call would say it again, as store::<4>(w, at, v as u64).

// Stores the four low bytes of a number from a place on.
pub fn set32(w: &mut [u8], at: usize, v: usize)
    requires { at + 4 ≤ length w.old }
    ensures { w.new ≡ stored 4 w.old at v }
{
    w[at..at + 4].copy_from_slice(&v.to_le_bytes()[..4]);
}

// Stores the eight bytes of a number from a place on.
pub fn set64(w: &mut [u8], at: usize, v: u64)
    requires { at + 8 ≤ length w.old }
    ensures { w.new ≡ stored 8 w.old at v }
{
    w[at..at + 8].copy_from_slice(&v.to_le_bytes());
}
