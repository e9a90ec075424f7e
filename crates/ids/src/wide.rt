// The units of lowered wide text, as the id of a name takes them: many a turn where they are of a script that is lowered with no branch, else
// one by one. Each function that writes is called from one place, so that the compiler leaves no call.
ghost use Rattle.std.specs.Prelude.{◌≡◌, true, map, ◌⊎◌, ◌+◌, ◌-◌, ◌*◌, ◌/◌, ◌%◌, ◌^◌, ◌≤◌, ◌<◌, length, get_or, take, drop};
ghost use Rattle.std.proofs.Math.ListN.{set};
ghost use Rattle.lower.specs.Lower.{lowered};
ghost use Rattle.rules.specs.Quick.{asks};
ghost use Rattle.base.specs.NumberLaws.{Bytes};
ghost use Rattle.base.specs.Output.{Wrote};
ghost use Rattle.text.specs.Utf16.{is_well, encode16, unit_bytes};
ghost use Rattle.text.specs.Name.{decoded, base};
ghost use Rattle.text.specs.Units.{units_of};
ghost use Rattle.ids.specs.LoweredUnits.{name_units};

use super::lowered::{lowered_unit, quick_unit};
use super::script::{All, Bits, Caseless, Greek, Latin, Script, Test};
use text::text::{Part, Text};
use text::units::put_unit;

// Wide text whose surrogates pair.
#[derive(Clone, Copy)]
pub struct Wide<'a> {
    pub bytes: &'a [u8],
    ghost fits: { Bytes bytes.now },
    ghost well: { is_well (decoded true bytes.now) ≡ true },
}

// The same as a text of either width.
impl<'a> From<Wide<'a>> for Text<'a> {
    ghost from_gives = { λ wide text. (text.part.wide ≡ true) × (text.part.bytes ≡ wide.bytes) };

    fn from(wide: Wide<'a>) -> Text<'a> {
        Text {
            part: Part {
                bytes: wide.bytes,
                wide: true,
            },
        }
    }
}

impl<'a> Wide<'a> {
    // How many units it has.
    pub fn count(self) -> usize
        ensures { result ≡ length (units_of true self.entry.bytes.now) }
    {
        Text::from(self).part.count()
    }

    // Unit i.
    pub fn unit(self, i: usize) -> u32
        requires { i < length (units_of true self.bytes.now) }
        ensures { (result ≡ get_or (units_of true self.entry.bytes.now) i 0) × (result < 65536) }
    {
        Text::from(self).part.unit(i)
    }
}

// Kept: apart from `Name`: of a `Name<'a, T: Units>` with `text: T`, of Text and of Wide, `count` would promise `length (T.units text) + length suffix`, so that
// each caller would prove (by `name-length`) that these are the units of `name_units`, as both promise now.
// A name of wide text: the text of its base, and its suffix as it stands.
#[derive(Clone, Copy)]
pub struct WideName<'a> {
    pub text: Wide<'a>,
    pub suffix: &'a [u8],
    ghost fits: { Bytes suffix.now },
}

impl<'a> WideName<'a> {
    // How many units it has, lowered.
    pub fn count(self) -> usize
        ensures { result ≡ length (name_units (base true self.entry.text.bytes.now) self.entry.suffix.now) }
    {
        self.text.count() + self.suffix.len()
    }
}

// Kept: text or name, from and n are three parameters, here and in id.rt, and that so many units are there is a `requires`: a struct of the three would be
// made anew wherever a part of the units goes on, as `put_singly(out, Run { from: r.from + k, n: r.n - k, ..r })`.

// The n units of wide text from a place on lowered as those of a script, and what is gathered of them. The loop runs to the end whatever it meets, so
// that the compiler can take many units a turn.
fn put_script<S: Script>(out: &mut [u8], text: Wide, from: usize, n: usize) -> S
    requires { (n ≤ length (units_of true text.bytes.now) - from) × (from + n < 2 ^ 64) × (2 * n ≤ length out.old) }
    ensures { (result ≡ S.gathered (take n (drop from (units_of true text.entry.bytes.now))))
        × Wrote out.old (unit_bytes (take n (drop from (map S.lowered (units_of true text.entry.bytes.now))))) out.new (2 * n) }
{
    let mut units = S::none();
    for i in 0..n {
        let u = text.unit(from + i) as u16;
        put_unit(out, i, S::lower(u));
        units = units.with(u);
    }
    units
}

// The n units of lowered wide text from a place on by the rules, up to the first for which the table is to be asked, and how many they are.
fn put_ruled(out: &mut [u8], text: Wide, from: usize, n: usize) -> usize
    requires { (n ≤ length (units_of true text.bytes.now) - from) × (2 * n ≤ length out.old) }
    ensures { (result ≤ n) × Wrote out.old (unit_bytes (take result (drop from (encode16 (lowered (base true text.entry.bytes.now))))))
        out.new (2 * result)
        × ((result ≡ n) ⊎ (asks (get_or (units_of true text.entry.bytes.now) (from + result) 0) ≡ true)) }
{
    for i in 0..n {
        let Some(u) = quick_unit(Text::from(text), from + i) else {
            return i;
        };
        put_unit(out, i, u as u16);
    }
    n
}

// The same by the rules or the table, all n of them.
// Kept: two loops: with this one alone, for all that `put_singly` puts, units that the rules know took 5 to 10 % longer (names of 7 units and of full-width
// letters).
fn put_lowered(out: &mut [u8], text: Wide, from: usize, n: usize)
    requires { (n ≤ length (units_of true text.bytes.now) - from) × (2 * n ≤ length out.old) }
    ensures { Wrote out.old (unit_bytes (take n (drop from (encode16 (lowered (base true text.entry.bytes.now))))))
        out.new (2 * n) }
{
    for i in 0..n {
        let u = lowered_unit(Text::from(text), from + i);
        put_unit(out, i, u as u16);
    }
}

// The n units of lowered wide text from a place on: by the rules alone up to the first for which the table is to be asked, and from there on with the table.
// Kept: this and `put_wide` are alike but for the two functions that they call. One function over two closures would say in its contract what each closure
// does to every buffer, from every place on, and that what the first leaves behind its units is written over: that contract is longer than both bodies.
fn put_singly(out: &mut [u8], text: Wide, from: usize, n: usize)
    requires { (n ≤ length (units_of true text.bytes.now) - from) × (from + n < 2 ^ 64)
        × (2 * n ≤ length out.old) }
    ensures { Wrote out.old (unit_bytes (take n (drop from (encode16 (lowered (base true text.entry.bytes.now))))))
        out.new (2 * n) }
{
    let k = put_ruled(out, text, from, n);
    if k < n {
        put_lowered(&mut out[2 * k..], text, from + k, n - k);
    }
}

// Whether the n units from a place on start with an ideograph or what is beyond: then they are not tried as ASCII.
fn starts_high(text: Wide, from: usize, n: usize) -> bool
    requires { n ≤ length (units_of true text.bytes.now) - from }
{
    n != 0 && 0x2CF3 <= text.unit(from)
}

// What units look like.
#[derive(Clone, Copy)]
enum Guess {
    Ascii,
    Latin,
    Greek,
    Other,
}

// The same by their bits together. Nothing but time depends on which script it is.
fn guessed(bits: u16) -> Guess
    ensures { result ≡ Guess.Ascii → bits < 0x80 }
{
    match bits {
        0..=0x7F => Guess::Ascii,
        0x80..=0x1FF | 0x1E00..=0x21FF => Guess::Latin,
        0x200..=0x4FF => Guess::Greek,
        _ => Guess::Other,
    }
}

// What the n units from a place on look like. Where they do not start high they are put with A to Z lowered, which is right if they are ASCII; but a
// text of less than eight units goes one by one, as Latin does that fills no turn: most of those that are ASCII never come here (`ascii.rt`).
// Here and below nothing behind the first 2 * n bytes changes.
fn tried(out: &mut [u8], text: Wide, from: usize, n: usize) -> Guess
    requires { (n ≤ length (units_of true text.bytes.now) - from) × (from + n < 2 ^ 64)
        × (2 * n ≤ length out.old) }
    ensures { Wrote out.old (take (2 * n) out.new) out.new (2 * n)
        × (result ≡ Guess.Ascii → take (2 * n) out.new ≡ unit_bytes (take n (drop from (encode16 (lowered (base true text.entry.bytes.now)))))) }
{
    if starts_high(text, from, n) {
        return Guess::Other;
    }
    if text.bytes.len() < 16 {
        return Guess::Latin;
    }
    guessed(put_script::<Bits>(out, text, from, n).bits)
}

// How many of the n units of lowered wide text from a place on were put as those of a script: all of them where they are of it, or none.
fn put_whole<T: Test>(out: &mut [u8], text: Wide, from: usize, n: usize) -> usize
    requires { (n ≤ length (units_of true text.bytes.now) - from) × (from + n < 2 ^ 64) × (2 * n ≤ length out.old) }
    ensures { (result ≤ n) × (take (2 * result) out.new ≡ unit_bytes (take result (drop from (encode16 (lowered (base true text.entry.bytes.now))))))
        × Wrote out.old (take (2 * n) out.new) out.new (2 * n) }
{
    if put_script::<All<T>>(out, text, from, n).all {
        n
    } else {
        0
    }
}

// How many of the n units of lowered wide text from a place on were put many a turn: all of them, by script all but the last up to seven, or none.
// What a try left behind them is to be written over.
fn put_turns(out: &mut [u8], text: Wide, from: usize, n: usize) -> usize
    requires { (n ≤ length (units_of true text.bytes.now) - from) × (from + n < 2 ^ 64)
        × (2 * n ≤ length out.old) }
    ensures { (result ≤ n) × (take (2 * result) out.new ≡ unit_bytes (take result (drop from (encode16 (lowered (base true text.entry.bytes.now))))))
        × Wrote out.old (take (2 * n) out.new) out.new (2 * n) }
{
    let m = n - n % 8;
    match tried(out, text, from, n) {
        Guess::Ascii => n,
        Guess::Latin => put_whole::<Latin>(out, text, from, m),
        Guess::Greek => put_whole::<Greek>(out, text, from, m),
        Guess::Other => put_whole::<Caseless>(out, text, from, n),
    }
}

// The n units of lowered wide text from a place on: many a turn, and what is left one by one.
pub fn put_wide(out: &mut [u8], text: Wide, from: usize, n: usize)
    requires { (n ≤ length (units_of true text.bytes.now) - from) × (from + n < 2 ^ 64)
        × (2 * n ≤ length out.old) }
    ensures { Wrote out.old (unit_bytes (take n (drop from (encode16 (lowered (base true text.entry.bytes.now))))))
        out.new (2 * n) }
{
    let k = put_turns(out, text, from, n);
    if k < n {
        put_singly(&mut out[2 * k..], text, from + k, n - k);
    }
}
