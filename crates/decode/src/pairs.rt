// Text that fits Latin-1, two bytes at a time: no two leading bytes stand together, so that one or two of each pair end a character. What pairs mean
// is found for 16 at once, since it shows by bytes side by side, and always for 16, since the bytes behind the text may be looked at; then those that are
// of the text are stored, and the place moves on by as many bytes as each has.
ghost use Rattle.std.specs.Prelude.{◌≡◌, ◌+◌, ◌-◌, ◌*◌, ◌≤◌, ◌<◌, length, take, drop, get_or};
ghost use Rattle.std.proofs.Math.ListN.{set};
ghost use Rattle.decode.specs.Tails.{kept, Tailed, Filling, picked, ran, Meant, Counted};

use super::tails::raised;
use base::number::le16;

// What a byte means between two others; a leading byte stands for its tail. `raised` is called once: of a call for each case the compiler makes a branch,
// and looks at the bytes one by one.
#[tactic(auto, unfolding(crate::specs::Tails::picked))]
fn picked(a: u8, b: u8, c: u8) -> u8
    ensures { result ≡ picked a b c }
{
    let (before, byte) = if b < 0xC0 { (a, b) } else { (b, c) };
    raised(before, byte)
}

// How many of two bytes end a character.
#[tactic(auto, unfolding(crate::specs::Tails::ran))]
fn ran(b: u8, c: u8) -> u8
    ensures { result ≡ ran b c }
{
    u8::from(b < 0xC0) + u8::from(c < 0xC0)
}

// What each of the 32 bytes from a place on means.
fn look_bytes(bytes: &mut [u8; 32], s: &[u8], i: usize)
    requires { (0 < i) × (i + 32 < length s.now) × (length bytes.old ≡ 32) }
    ensures { Meant s.now i 32 bytes.new }
{
    for k in 0..32 {
        bytes[k] = picked(s[i + k - 1], s[i + k], s[i + k + 1]);
    }
}

// How many of each of the 32 bytes from a place on and the byte behind it end a character. Pairs start at every other one; all are counted, since so
// the compiler takes 16 at once.
fn look_sizes(sizes: &mut [u8; 32], s: &[u8], i: usize)
    requires { (i + 32 < length s.now) × (length sizes.old ≡ 32) }
    ensures { Counted s.now i 32 sizes.new }
{
    for k in 0..32 {
        sizes[k] = ran(s[i + k], s[i + k + 1]);
    }
}

// How many pairs are taken together where so many bytes are left: a byte is left behind them.
pub fn pairs_of(left: usize) -> usize
    requires { 3 ≤ left }
    ensures { (0 < result) × (result ≤ 16) × (2 * result < left) }
{
    ((left - 1) / 2).min(16)
}

// The two bytes of src from a place on, to a place, as one word: two stores of a byte each take longer.
fn put_two(out: &mut [u8], at: usize, src: &[u8], from: usize)
    requires { (from + 2 ≤ length src.now) × (at + 2 ≤ length out.old) }
    ensures { out.new ≡ set (set out.old at (get_or src.now from 0)) (at + 1) (get_or src.now (from + 1) 0) }
{
    let [low, high] = le16(src, from).to_le_bytes();
    out[at] = low;
    out[at + 1] = high;
}

// So many pairs from a place on, of the text that is the first bytes of s as far as another. Returns how many bytes were written.
// `to` serves the clauses alone: they say what is left of the text, and that out has room for it.
pub fn put_pairs(out: &mut [u8], s: &[u8], to: usize, i: usize, pairs: usize) -> usize
    requires { (0 < i) × (pairs ≤ 16) × (i + 2 * pairs < to) × (to + 33 ≤ length s.now) × Tailed (get_or s.now (i - 1) 0) (drop i (take to s.now))
        × (length (kept (get_or s.now (i - 1) 0) (drop i (take to s.now))) ≤ length out.old) }
    ensures { Filling out.old (get_or s.now (i - 1) 0) (drop i (take to s.now)) out.new (2 * pairs) result (get_or s.now (i + 2 * pairs - 1) 0) }
{
    // Kept: two arrays, each filled by a loop of its own, many bytes at a time: with one loop over an array of 16 `Pair { first, second, size }` a window
    // took 41 to 58 ns for 11 to 26.
    let mut bytes = [0u8; 32];
    let mut sizes = [0u8; 32];
    look_bytes(&mut bytes, s, i);
    look_sizes(&mut sizes, s, i);
    let mut n = 0;
    for k in 0..pairs {
        put_two(out, n, &bytes, 2 * k);
        n += usize::from(sizes[2 * k]);
    }
    n
}
