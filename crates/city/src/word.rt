// Words of 64 bits that wrap.
ghost use Rattle.std.specs.Prelude.{◌≡◌, ◌<◌};
ghost use Rattle.city.specs.Word.{addw, mulw, rotr, swap};

// Kept: a name for each of the library's calls. `mul(shift_mix(mul(y, K2) ^ mul(z, K0)), K2)` would read
// `shift_mix(y.wrapping_mul(K2) ^ z.wrapping_mul(K0)).wrapping_mul(K2)`, and `rotate(b, 37)` the longer `b.rotate_right(37)`. The library says a turn and
// the other order in words of its own; here it is proved once, for each use, that they are `rotr` and `swap`, which the hash is defined by.

// a + b, modulo 2^64.
pub fn add(a: u64, b: u64) -> u64
    ensures { result ≡ addw a b }
{
    a.wrapping_add(b)
}

// a * b, modulo 2^64.
pub fn mul(a: u64, b: u64) -> u64
    ensures { result ≡ mulw a b }
{
    a.wrapping_mul(b)
}

// x turned right by k bits.
pub fn rotate(x: u64, k: u32) -> u64
    requires { (0 < k) × (k < 64) }
    ensures { result ≡ rotr k x }
{
    x.rotate_right(k)
}

// The eight bytes of x in the other order.
pub fn swap64(x: u64) -> u64
    ensures { result ≡ swap 8 x }
{
    x.swap_bytes()
}
