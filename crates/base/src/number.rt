// Numbers in bytes: read in either order of bytes.
ghost use Rattle.std.specs.Prelude.{◌≡◌, ◌+◌, ◌^◌, ◌≤◌, ◌<◌, length};
ghost use Rattle.base.specs.Number.{le_at, be_at};

// Kept: a function for each width and order: `from_le_bytes` is of no trait of std. Of num_traits' `FromBytes` the clause would be `of_le_bytes` of an array that
// is associated to the type, and a slice would have to be made into it by a bound of its own, `T::Bytes: TryFrom<&[u8]>`; then each width would have a law.

// Kept: a slice and a place in it are two parameters, and that the place lies inside is a `requires`, here and wherever something is read at a place: a
// struct of the two that holds the fact would be made anew for each field, as `Spot { s, at: at + 4 }.le32()`.

// The u16 of the two bytes from a place on, little-endian.
pub fn le16(s: &[u8], at: usize) -> u16
    requires { at + 2 ≤ length s.now }
    ensures { result ≡ le_at 2 s.now at }
{
    u16::from_le_bytes(s[at..at + 2].try_into().unwrap())
}

// The u32 of the four bytes from a place on, little-endian.
pub fn le32(s: &[u8], at: usize) -> u32
    requires { at + 4 ≤ length s.now }
    ensures { result ≡ le_at 4 s.now at }
{
    u32::from_le_bytes(s[at..at + 4].try_into().unwrap())
}

// The number of the four bytes from a place on, little-endian, as a usize.
pub fn le32_usize(s: &[u8], at: usize) -> usize
    requires { at + 4 ≤ length s.now }
    ensures is { result ≡ le_at 4 s.now at }
    ensures fits { result < 2 ^ 32 }
{
    le32(s, at) as usize
}

// The u64 of the eight bytes from a place on, little-endian.
pub fn le64(s: &[u8], at: usize) -> u64
    requires { at + 8 ≤ length s.now }
    ensures { result ≡ le_at 8 s.now at }
{
    u64::from_le_bytes(s[at..at + 8].try_into().unwrap())
}

// The u32 of the four bytes from a place on, big-endian.
pub fn be32(s: &[u8], at: usize) -> u32
    requires { at + 4 ≤ length s.now }
    ensures { result ≡ be_at 4 s.now at }
{
    u32::from_be_bytes(s[at..at + 4].try_into().unwrap())
}

// The number of the four bytes from a place on, big-endian, as a usize.
pub fn be32_usize(s: &[u8], at: usize) -> usize
    requires { at + 4 ≤ length s.now }
    ensures is { result ≡ be_at 4 s.now at }
    ensures fits { result < 2 ^ 32 }
{
    be32(s, at) as usize
}

// The u64 of the eight bytes from a place on, big-endian.
pub fn be64(s: &[u8], at: usize) -> u64
    requires { at + 8 ≤ length s.now }
    ensures { result ≡ be_at 8 s.now at }
{
    u64::from_be_bytes(s[at..at + 8].try_into().unwrap())
}
