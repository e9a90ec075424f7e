// Room on the stack.
ghost use Rattle.std.specs.Prelude.{ℕ, ◌≡◌, ◌<◌, length, get_or};

// How much there is for the list, for the work buffer of any case, and for the report of any case.
pub const LIST: usize = 1048576;

pub const WORK: usize = 262144;

pub const REPORT: usize = 65536;

// What the report buffer holds before the call: a byte that no text has.
pub const BLANK: u8 = 255;

// Room for N bytes, each the given one: said byte by byte, since the prover would compute `replicate` of a million.
pub fn filled<const N: usize>(byte: u8) -> [u8; N]
    ensures is { (i : ℕ) → i < N → get_or result i 0 ≡ byte }
    ensures long { N ≡ length result }
{
    [byte; N]
}
