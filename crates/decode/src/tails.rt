// Text that fits Latin-1, written byte by byte without a branch: each byte is stored, and the place moves on only behind one that ends a
// character, so that a leading byte is written over.
ghost use Rattle.std.specs.Prelude.{◌≡◌, ◌+◌, ◌-◌, ◌≤◌, ◌<◌, length, get_or, drop};
ghost use Rattle.base.specs.Output.{Wrote};
ghost use Rattle.decode.specs.Tails.{kept, raised, Tailed};

// What a byte below C0 means after another: C3 adds 40 to a tail.
#[tactic(auto, unfolding(crate::specs::Tails::raised))]
pub fn raised(before: u8, b: u8) -> u8
    ensures { result ≡ raised before b }
{
    if before == 0xC3 {
        return b | 0x40;
    }
    b
}

// Any such text. Returns how many bytes were written.
pub fn put_each(out: &mut [u8], s: &[u8]) -> usize
    requires { Tailed 0 s.now × (length (kept 0 s.now) ≤ length out.old) }
    ensures { Wrote out.old (kept 0 s.now) out.new result }
{
    let mut n: usize = 0;
    let mut before: u8 = 0;
    for b in s {
        out[n] = raised(before, *b);
        n += usize::from(*b < 0xC0);
        before = *b;
    }
    n
}

// The last byte or two, from a place on. Returns how many bytes were written.
pub fn put_last(out: &mut [u8], s: &[u8], i: usize) -> usize
    requires { (0 < i) × (i < length s.now) × (length s.now ≤ i + 2) × Tailed (get_or s.now (i - 1) 0) (drop i s.now)
        × (length (kept (get_or s.now (i - 1) 0) (drop i s.now)) ≤ length out.old) }
    ensures { Wrote out.old (kept (get_or s.now (i - 1) 0) (drop i s.now)) out.new result }
{
    let b = s[i];
    out[0] = raised(s[i - 1], b);
    let n = usize::from(b < 0xC0);
    if s.len() - i < 2 {
        return n;
    }
    let c = s[i + 1];
    out[n] = raised(b, c);
    n + usize::from(c < 0xC0)
}
