// Signed numbers, decoded from their bits, and the sizes that they say.
ghost use Rattle.std.specs.Prelude.{◌≡◌, ◌+◌, ◌≤◌, length};
ghost use Rattle.base.specs.Number.{le_at};
ghost use Rattle.base.specs.Signed.{twos};
ghost use Rattle.base.specs.SignedSize.{size_in};

use super::number::{le32, le64};

// Kept: two functions of each kind: a trait over i32 and i64 would have `le_i32` and `le_i64` as its impls, and `le_size` over it be told the type in each
// call, as `le_size::<i32>(b, at)`.

// The i32 of the four bytes from a place on, little-endian.
pub fn le_i32(s: &[u8], at: usize) -> i32
    requires { at + 4 ≤ length s.now }
    ensures { result ≡ twos 32 (le_at 4 s.now at) }
{
    le32(s, at).cast_signed()
}

// The i64 of the eight bytes from a place on, little-endian.
pub fn le_i64(s: &[u8], at: usize) -> i64
    requires { at + 8 ≤ length s.now }
    ensures { result ≡ twos 64 (le_at 8 s.now at) }
{
    le64(s, at).cast_signed()
}

// The size that the four bytes from a place on say, little-endian, unless it is negative.
pub fn le_size32(s: &[u8], at: usize) -> Option<u64>
    requires { at + 4 ≤ length s.now }
    ensures { result ≡ size_in 32 (le_at 4 s.now at) }
{
    u64::try_from(le_i32(s, at)).ok()
}

// The size that the eight bytes from a place on say, little-endian, unless it is negative.
pub fn le_size64(s: &[u8], at: usize) -> Option<u64>
    requires { at + 8 ≤ length s.now }
    ensures { result ≡ size_in 64 (le_at 8 s.now at) }
{
    u64::try_from(le_i64(s, at)).ok()
}
