// Numbers written little-endian to the front of a lent buffer. Each function returns how many bytes it wrote.
ghost use Rattle.std.specs.Prelude.{◌≤◌, length};
ghost use Rattle.base.specs.Number.{le_bytes};
ghost use Rattle.base.specs.Output.{Wrote};

use base::output::put_bytes;

// Kept: two functions of one line, as `put_be32` and `put_be64` of base's output.rt.

// A number in 4 bytes.
pub fn put_le32(out: &mut [u8], n: u32) -> usize
    requires { 4 ≤ length out.old }
    ensures { Wrote out.old (le_bytes 4 n) out.new result }
{
    put_bytes(out, &n.to_le_bytes())
}

// A number in 8 bytes.
pub fn put_le64(out: &mut [u8], n: u64) -> usize
    requires { 8 ≤ length out.old }
    ensures { Wrote out.old (le_bytes 8 n) out.new result }
{
    put_bytes(out, &n.to_le_bytes())
}
