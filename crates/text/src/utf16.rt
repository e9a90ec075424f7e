// Scalar values of units (the Unicode Standard, D91), and whether a part is a text.
ghost use Rattle.std.specs.Prelude.{◌≡◌, true, ◌<◌, length, drop};
ghost use Rattle.text.specs.Utf16.{is_well};
ghost use Rattle.text.specs.Name.{decoded};
ghost use Rattle.text.specs.Units.{units_of, units_in, scalar_of};
ghost use Rattle.text.specs.UnitLength.{is_single, all_single};

use super::text::Part;

// A scalar value, and how many units it takes: one or two.
// Kept: apart from `Char { value, size }` of `decode`, which counts bytes of UTF-8: one type would leave open what is counted.
#[derive(Clone, Copy)]
pub struct Scalar {
    pub value: u32,
    pub units: usize,
}

// The scalar value that starts with unit i of a part; none for a surrogate with no partner. Written out where it is called: else the loops that go from one
// to the next look twice at how many units it takes.
#[inline(always)]
pub fn scalar_at(part: Part, i: usize) -> Option<Scalar>
    requires { i < length (units_in part) }
    ensures { result ≡ scalar_of (drop i (units_in part.entry)) }
{
    let u = part.unit(i);
    if is_single(u) {
        return Some(Scalar { value: u, units: 1 });
    }
    if 0xDC00 <= u {
        return None;
    }
    let next = i + 1;
    if part.count() <= next {
        return None;
    }
    let v = part.unit(next);
    if v < 0xDC00 || 0xE000 <= v {
        return None;
    }
    let value = 0x10000 + (u - 0xD800) * 0x400 + (v - 0xDC00);
    Some(Scalar { value, units: 2 })
}

// Whether a unit is a scalar value by itself: no surrogate.
pub fn is_single(u: u32) -> bool
    ensures { result ≡ is_single u }
{
    u < 0xD800 || 0xE000 <= u
}

// Whether no unit of wide text is a surrogate. The loop runs to the end whatever it meets, so that the compiler can take many units a turn.
fn all_single(bytes: &[u8]) -> bool
    ensures { result ≡ all_single (units_of true bytes.now) }
{
    let part = Part { bytes, wide: true };
    let mut all = true;
    for i in 0..part.count() {
        all &= is_single(part.unit(i));
    }
    all
}

// Whether the surrogates of wide text pair.
// Kept: a `while`, since each scalar value says where the next begins.
fn is_paired(bytes: &[u8]) -> bool
    ensures { result ≡ is_well (decoded true bytes.now) }
{
    let part = Part { bytes, wide: true };
    let n = part.count();
    let mut i = 0;
    while i < n {
        let Some(c) = scalar_at(part, i) else {
            return false;
        };
        i += c.units;
    }
    true
}

// Whether a part is a text: always for one-byte text, and for wide text where its surrogates pair. Most have none, which is asked first.
pub fn is_text(part: Part) -> bool
    ensures { result ≡ is_well (decoded part.entry.wide part.entry.bytes.now) }
{
    if !part.wide {
        return true;
    }
    if all_single(part.bytes) {
        return true;
    }
    is_paired(part.bytes)
}
