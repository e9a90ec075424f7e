// Text that is known to be UTF-8: whether it fits Latin-1, by its bytes alone, none decoded. `all_below` and `is_ascii` serve tests for ASCII too, of any
// bytes.
ghost use Rattle.std.specs.Prelude.{◌≡◌, true, ◌&&◌, ◌+◌, ◌≤◌, ltb, leb, length, take, drop, get_or};
ghost use Rattle.text.specs.Affix.{all_ascii};
ghost use Rattle.text.specs.Utf16.{is_well};
ghost use Rattle.text.specs.Utf8.{from_utf8};
ghost use Rattle.decode.specs.Measure.{text_of, fits_latin1};
ghost use Rattle.decode.specs.Latin.{every, low};

use text::plain::is_plain;

// Whether some bytes are all below a limit: one test for all, without a branch.
fn are_below<const LIMIT: u8>(s: &[u8]) -> bool
    ensures { result ≡ every (λ b. ltb b LIMIT) s.now }
{
    let mut all = true;
    for b in s {
        all &= *b < LIMIT;
    }
    all
}

// Whether the N bytes from a place on are.
pub fn all_below<const N: usize, const LIMIT: u8>(s: &[u8], at: usize) -> bool
    requires { at + N ≤ length s.now }
    ensures { result ≡ every (λ b. ltb b LIMIT) (take N (drop at s.now)) }
{
    are_below::<LIMIT>(&s[at..at + N])
}

// Whether the first byte is there, and not below a limit.
fn starts_from<const LIMIT: u8>(s: &[u8]) -> bool
    ensures { result ≡ (ltb 0 (length s.now) && leb LIMIT (get_or s.now 0 0)) }
{
    0 < s.len() && LIMIT <= s[0]
}

// Whether bytes are all ASCII: most that aren't show it by the first one, before a test that branches by how many they are. Written out where it is called:
// else short ASCII names take a quarter more.
#[inline(always)]
pub fn is_ascii(s: &[u8]) -> bool
    ensures { result ≡ all_ascii s.now }
{
    if starts_from::<0x80>(s) {
        return false;
    }
    is_plain(s)
}

// Whether the text fits Latin-1: U+00FF is C3 BF. The first byte alone, then sixteen bytes a turn; the last sixteen, or eight, may have some of those
// before them.
pub fn is_latin1(s: &[u8]) -> bool
    requires { is_well (from_utf8 s.now) ≡ true }
    ensures { result ≡ fits_latin1 (text_of s.now) }
{
    if starts_from::<0xC4>(s) {
        return false;
    }
    let n = s.len();
    if n < 8 {
        return are_below::<0xC4>(s);
    }
    if n < 16 {
        return all_below::<8, 0xC4>(s, 0) & all_below::<8, 0xC4>(s, n - 8);
    }
    let last = n - 16;
    for turn in 0..last.div_ceil(16) {
        if !all_below::<16, 0xC4>(s, 16 * turn) {
            return false;
        }
    }
    all_below::<16, 0xC4>(s, last)
}
