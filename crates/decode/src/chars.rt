// UTF-8 read one character at a time (RFC 3629, section 4).
ghost use Rattle.std.specs.Prelude.{◌≡◌, true, ◌+◌, ◌-◌, ◌≤◌, ◌<◌, length, get_or, drop, Some};
ghost use Rattle.text.specs.Utf16.{is_well};
ghost use Rattle.text.specs.Utf8.{from_utf8};
ghost use Rattle.decode.specs.Chars.{Range, within, second, is_two, is_three, is_four, is_common, joined, char_of};

// A scalar value and how many bytes it takes.
#[derive(Clone, Copy)]
pub struct Char {
    pub value: u32,
    pub size: usize,
}

// Whether a byte is in a range.
// Kept: a name for the library's call, since `within` is the word of the definitions, which clauses and proofs cite.
pub fn within(low: u8, high: u8, b: u8) -> bool
    ensures { result ≡ within low high b }
{
    (low..=high).contains(&b)
}

// Whether b may come second after a, in three bytes or four: E0 and F0 rule overlong forms out, ED surrogates, F4 what is above 10FFFF.
#[tactic(auto, unfolding(crate::specs::Chars::second))]
fn second(a: u8, b: u8) -> bool
    ensures { result ≡ second a b }
{
    match a {
        0xE0 => within(0xA0, 0xBF, b),
        0xED => within(0x80, 0x9F, b),
        0xF0 => within(0x90, 0xBF, b),
        0xF4 => within(0x80, 0x8F, b),
        _ => within(0x80, 0xBF, b),
    }
}

#[tactic(auto, unfolding(crate::specs::Chars::is_two))]
fn is_two(a: u8, b: u8) -> bool
    ensures { result ≡ is_two a b }
{
    within(0xC2, 0xDF, a) && within(0x80, 0xBF, b)
}

#[tactic(auto, unfolding(crate::specs::Chars::is_three))]
fn is_three(a: u8, b: u8, c: u8) -> bool
    ensures { result ≡ is_three a b c }
{
    within(0xE0, 0xEF, a) && second(a, b) && within(0x80, 0xBF, c)
}

#[tactic(auto, unfolding(crate::specs::Chars::is_four))]
fn is_four(a: u8, b: u8, c: u8, d: u8) -> bool
    ensures { result ≡ is_four a b c d }
{
    within(0xF0, 0xF4, a) && second(a, b) && within(0x80, 0xBF, c) && within(0x80, 0xBF, d)
}

// Kept: bytes, and their ranges a `requires`: with a type for a byte that is a tail `known_first` would make one of each byte that it knows to be one,
// as `two(a, Tail { b: s[1] })`. And three functions: one over a size, as `joined::<3, 0xE0>([a, b, c])`, would go through a loop over the tails.
// Kept: a scalar value is a u32: `char::from_u32` answers an Option of what is known to be one.

// The scalar value of two bytes.
pub fn two(a: u8, b: u8) -> u32
    requires { Range 0xC2 0xDF a × Range 0x80 0xBF b }
    ensures { result ≡ joined (a - 0xC0) b }
{
    u32::from(a - 0xC0) * 64 + u32::from(b - 0x80)
}

// The scalar value of three.
pub fn three(a: u8, b: u8, c: u8) -> u32
    requires { Range 0xE0 0xEF a × Range 0x80 0xBF b × Range 0x80 0xBF c }
    ensures { result ≡ joined (joined (a - 0xE0) b) c }
{
    (u32::from(a - 0xE0) * 64 + u32::from(b - 0x80)) * 64 + u32::from(c - 0x80)
}

// The scalar value of four.
fn four(a: u8, b: u8, c: u8, d: u8) -> u32
    requires { Range 0xF0 0xF4 a × Range 0x80 0xBF b × Range 0x80 0xBF c × Range 0x80 0xBF d }
    ensures { result ≡ joined (joined (joined (a - 0xF0) b) c) d }
{
    ((u32::from(a - 0xF0) * 64 + u32::from(b - 0x80)) * 64 + u32::from(c - 0x80)) * 64
        + u32::from(d - 0x80)
}

// Byte i, or 0 where there is none.
// Kept: no Option: 0 is no byte behind the first, so that the tests below refuse it as they refuse others.
fn byte(s: &[u8], i: usize) -> u8
    ensures { result ≡ get_or s.now i 0 }
{
    s.get(i).copied().unwrap_or(0)
}

// The first character.
pub fn first_char(s: &[u8]) -> Option<Char>
    ensures { result ≡ char_of s.now }
{
    let a = *s.first()?;
    if a <= 0x7F {
        return Some(Char {
            value: u32::from(a),
            size: 1,
        });
    }
    let b = byte(s, 1);
    if a <= 0xDF {
        if is_two(a, b) {
            return Some(Char {
                value: two(a, b),
                size: 2,
            });
        }
        return None;
    }
    let c = byte(s, 2);
    if a <= 0xEF {
        if is_three(a, b, c) {
            return Some(Char {
                value: three(a, b, c),
                size: 3,
            });
        }
        return None;
    }
    let d = byte(s, 3);
    if is_four(a, b, c, d) {
        return Some(Char {
            value: four(a, b, c, d),
            size: 4,
        });
    }
    None
}

// The character at a place.
pub fn char_at(s: &[u8], at: usize) -> Option<Char>
    requires { at ≤ length s.now }
    ensures { result ≡ char_of (drop at s.now) }
{
    first_char(&s[at..])
}

// Whether the three bytes at a place are a character whose first byte asks nothing more of the second than that it is a tail. One test,
// without a branch.
#[tactic(auto, unfolding(crate::specs::Chars::is_common))]
pub fn is_common(s: &[u8], at: usize) -> bool
    requires { at + 3 ≤ length s.now }
    ensures { result ≡ is_common (get_or s.now at 0) (get_or s.now (at + 1) 0) (get_or s.now (at + 2) 0) }
{
    within(0xE1, 0xEC, s[at]) & within(0x80, 0xBF, s[at + 1]) & within(0x80, 0xBF, s[at + 2])
}

// The character at a place: ASCII and most characters of three bytes come before the others.
pub fn quick_char(s: &[u8], at: usize) -> Option<Char>
    requires { at < length s.now }
    ensures { result ≡ char_of (drop at s.now) }
{
    let a = s[at];
    if a <= 0x7F {
        return Some(Char {
            value: u32::from(a),
            size: 1,
        });
    }
    if 3 <= s.len() - at && is_common(s, at) {
        return Some(Char {
            value: three(a, s[at + 1], s[at + 2]),
            size: 3,
        });
    }
    char_at(s, at)
}

// The first character of bytes that are known to be UTF-8: its first byte says how many it takes.
fn known_first(s: &[u8]) -> Char
    requires { (0 < length s.now) × (is_well (from_utf8 s.now) ≡ true) }
    ensures { Some result ≡ char_of s.now }
{
    let a = s[0];
    if a <= 0x7F {
        return Char {
            value: u32::from(a),
            size: 1,
        };
    }
    let b = s[1];
    if a <= 0xDF {
        return Char {
            value: two(a, b),
            size: 2,
        };
    }
    let c = s[2];
    if a <= 0xEF {
        return Char {
            value: three(a, b, c),
            size: 3,
        };
    }
    Char {
        value: four(a, b, c, s[3]),
        size: 4,
    }
}

// The character at a place from which on the bytes are known to be UTF-8.
pub fn known_char(s: &[u8], at: usize) -> Char
    requires { (at < length s.now) × (is_well (from_utf8 (drop at s.now)) ≡ true) }
    ensures { Some result ≡ char_of (drop at s.now) }
{
    known_first(&s[at..])
}
