// Bytes and numbers written to the front of a lent buffer. Each function returns how many bytes it wrote.
ghost use Rattle.std.specs.Prelude.{[], ◌∷◌, ◌≤◌, length};
ghost use Rattle.base.specs.Number.{be_bytes};
ghost use Rattle.base.specs.Output.{Wrote};

// Kept: a buffer and what is written to it are two parameters, and that it has room is a `requires`, here and in all that writes: a buffer whose type
// says how much room it has would be made anew behind each part, as `Room::<4> { out: &mut out[n..] }.put_be32(m)`.

// One byte.
pub fn put_byte(out: &mut [u8], b: u8) -> usize
    requires { 1 ≤ length out.old }
    ensures { Wrote out.old (b ∷ []) out.new result }
{
    out[0] = b;
    1
}

// The bytes of src.
// Kept: a loop by hand: `copy_from_slice` of a length that isn't known is a call of the C library's memmove, which an archive for C would need from outside.
pub fn put_bytes(out: &mut [u8], src: &[u8]) -> usize
    requires { length src.now ≤ length out.old }
    ensures { Wrote out.old src.now out.new result }
{
    for (i, b) in src.iter().enumerate() {
        out[i] = *b;
    }
    src.len()
}

// Kept: two functions of one line: `to_be_bytes` is of no trait of std, and over num_traits' `ToBytes` the clause would be `be_bytes_of n`, so that what is proved
// of `be_bytes 4 n` and `be_bytes 8 n` would want a law for each width in place of the two.

// A number in 4 bytes, big-endian.
pub fn put_be32(out: &mut [u8], n: u32) -> usize
    requires { 4 ≤ length out.old }
    ensures { Wrote out.old (be_bytes 4 n) out.new result }
{
    put_bytes(out, &n.to_be_bytes())
}

// A number in 8 bytes, big-endian.
pub fn put_be64(out: &mut [u8], n: u64) -> usize
    requires { 8 ≤ length out.old }
    ensures { Wrote out.old (be_bytes 8 n) out.new result }
{
    put_bytes(out, &n.to_be_bytes())
}
