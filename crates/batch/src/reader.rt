// Fields at a position of a slice, as numbers (reader.rs).
ghost use Rattle.std.specs.Prelude.{◌≡◌, ◌+◌, ◌≤◌, ◌<◌, length, get_or};
ghost use Rattle.batch.specs.Field.{low30};

// The low 30 bits of four bytes.
pub fn u30_le(s: &[u8], at: usize) -> usize
    requires { at + 4 ≤ length s.now }
    ensures { (result ≡ low30 s.now at) × (result < 1073741824) }
{
    base::index::name_index(base::number::le32(s, at)) as usize
}
