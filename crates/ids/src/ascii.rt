// The units of a short name of wide text that is ASCII, in an array of numbers: `short` hashes them.
ghost use Rattle.std.specs.Prelude.{◌≡◌, true, false, map, ◌+◌, ◌≤◌, ltb, length, take, drop, MatchOption};
ghost use Rattle.std.proofs.Math.Seq.{paste};
ghost use Rattle.lower.specs.Ascii.{lower_ascii};
ghost use Rattle.base.specs.Output.{Wrote};
ghost use Rattle.text.specs.Affix.{all_ascii};
ghost use Rattle.text.specs.Name.{base};
ghost use Rattle.text.specs.Units.{units_of};
ghost use Rattle.ids.specs.LoweredUnits.{bits_from, name_units};

use super::short::put_each;
use super::wide::{Wide, WideName};
use lower::ascii::lower_ascii;
use text::text::Part;

// Whether a name of wide text is tried as ASCII: where its base has few units, of which the first is. Nothing but time depends on it.
pub fn is_tried(bytes: &[u8], n: usize) -> bool
    ensures { result ≡ true → n ≤ 16 }
{
    let part = Part { bytes, wide: true };
    let count = part.count();
    n <= 16 && 0 < count && count <= 11 && part.unit(0) < 0x80
}

// The four units of wide text from a place on with A to Z lowered, at the same place of an array, and all bits of them together.
fn put_four(units: &mut [u32], text: Wide, i: usize) -> u32
    requires { (i + 4 ≤ length (units_of true text.bytes.now)) × (i + 4 ≤ length units.old) }
    ensures { (result ≡ bits_from 0 (take 4 (drop i (units_of true text.entry.bytes.now))))
        × (units.new ≡ paste units.old i (drop i (map lower_ascii (units_of true text.entry.bytes.now))) 4) }
{
    let a = text.unit(i);
    let b = text.unit(i + 1);
    let c = text.unit(i + 2);
    let d = text.unit(i + 3);
    units[i] = lower_ascii(a);
    units[i + 1] = lower_ascii(b);
    units[i + 2] = lower_ascii(c);
    units[i + 3] = lower_ascii(d);
    a | b | c | d
}

// All units of wide text so, one by one.
fn put_all(units: &mut [u32], text: Wide) -> u32
    requires { length (units_of true text.bytes.now) ≤ length units.old }
    ensures { (result ≡ bits_from 0 (units_of true text.entry.bytes.now))
        × Wrote units.old (map lower_ascii (units_of true text.entry.bytes.now)) units.new (length (units_of true text.entry.bytes.now)) }
{
    let mut bits: u32 = 0;
    for i in 0..text.count() {
        let u = text.unit(i);
        units[i] = lower_ascii(u);
        bits = bits | u;
    }
    bits
}

// The same, four to eight of them as the first four and the last. The bits are below 0x80 just where all units are ASCII: then A to Z is all there was
// to lower.
fn put_lowered(units: &mut [u32], text: Wide) -> u32
    requires { length (units_of true text.bytes.now) ≤ length units.old }
    ensures { (ltb result 0x80 ≡ all_ascii (units_of true text.entry.bytes.now))
        × Wrote units.old (map lower_ascii (units_of true text.entry.bytes.now)) units.new (length (units_of true text.entry.bytes.now)) }
{
    let n = text.count();
    if 4 <= n && n <= 8 {
        let bits = put_four(units, text, 0);
        return bits | put_four(units, text, n - 4);
    }
    put_all(units, text)
}

// The units of a lowered name of wide text, if its base is ASCII: how many they are.
pub fn put_ascii(units: &mut [u32], name: WideName) -> Option<usize>
    requires { length (name_units (base true name.text.bytes.now) name.suffix.now) ≤ length units.old }
    ensures { MatchOption result (all_ascii (units_of true name.entry.text.bytes.now) ≡ false)
        (λ n. (all_ascii (units_of true name.entry.text.bytes.now) ≡ true)
        × Wrote units.old (name_units (base true name.entry.text.bytes.now) name.entry.suffix.now) units.new n) }
{
    if 0x7F < put_lowered(units, name.text) {
        return None;
    }
    put_each(
        &mut units[name.text.count()..],
        name.suffix,
        |b| u32::from(b),
    );
    Some(name.count())
}
