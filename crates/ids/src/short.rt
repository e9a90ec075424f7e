// The hash of a short name, by its units. The words that CityHash64 asks for are put together of units: up to eight as they are read from a base and
// a suffix, more of an array of numbers. No byte is written, and none is read back at another width than it was written.
ghost use Rattle.std.specs.Prelude.{◌≡◌, List, [], ◌∷◌, ◌++◌, ℕ, map, ◌+◌, ◌*◌, ◌^◌, ◌≤◌, ◌<◌, length, get_or, take};
ghost use Rattle.lower.specs.Lower.{lower, lowered};
ghost use Rattle.base.specs.Number.{le_at};
ghost use Rattle.base.specs.NumberLaws.{Bytes};
ghost use Rattle.base.specs.Output.{Wrote};
ghost use Rattle.text.specs.Utf16.{unit_bytes};
ghost use Rattle.text.specs.Utf16Cases.{Words};
ghost use Rattle.city.specs.City.{city_hash64};

use city::city::{hash_bytes, hash_four, hash_halves, hash_len0, hash_two};
use lower::ascii::lower_ascii;
use rules::latin::{lower_byte, lower_latin};

// Units that are read one by one.
// Kept: they are u32, as `Part::unit`, `lower_ascii` and `lower_latin` give them: as u16 they would spare the casts in `tiny_hash` and in `put_end`, and ask for four:
// `lower_latin1(..) as u16` and `self.units[i] as u16` in the two `unit`s here, and in `pair`, where two of them are added, `u32::from` twice.
pub trait Units: Copy {
    ghost units: { Self → List ℕ };

    // How many they are.
    fn count(self) -> usize
        ensures { result ≡ length (units self) };

    // Unit i.
    fn unit(self, i: usize) -> u32
        requires { i < length (units self) }
        ensures { (result ≡ get_or (units self) i 0) × (result < 65536) };
}

// A lowered name of one-byte text, by its base and its suffix.
#[derive(Clone, Copy)]
pub struct Narrow<'a> {
    pub base: &'a [u8],
    pub suffix: &'a [u8],
    ghost fits: { Bytes base.now × Bytes suffix.now },
}

// The lower-case form of a character of Latin-1: ASCII first, which most are.
// Kept: not `u32::from(lower_byte(b))` in its place: names of two to eight letters took 6 to 10 % longer.
fn lower_latin1(c: u32) -> u32
    requires { c < 0x100 }
    ensures { result ≡ lower c }
{
    if c < 0x80 {
        return lower_ascii(c);
    }
    lower_latin(c)
}

impl<'a> Units for Narrow<'a> {
    ghost units = { λ p. lowered p.base.now ++ p.suffix.now };

    fn count(self) -> usize {
        self.base.len() + self.suffix.len()
    }

    fn unit(self, i: usize) -> u32 {
        if i < self.base.len() {
            return lower_latin1(u32::from(self.base[i]));
        }
        u32::from(self.suffix[i - self.base.len()])
    }
}

// Units that stand in an array of numbers.
#[derive(Clone, Copy)]
pub struct Numbers<'a> {
    pub units: &'a [u32],
    ghost words: { Words units.now },
}

impl<'a> Units for Numbers<'a> {
    ghost units = { λ p. p.units.now };

    fn count(self) -> usize {
        self.units.len()
    }

    fn unit(self, i: usize) -> u32 {
        self.units[i]
    }
}

// The half word of the two units from a place on.
fn pair<U: Units>(name: U, i: usize) -> u32
    requires { (i + 2 ≤ length (U.units name)) × (i ≤ 16) }
    ensures { result ≡ le_at 4 (unit_bytes (U.units name)) (2 * i) }
{
    name.unit(i) + (name.unit(i + 1) << 16)
}

// The word of the four units from a place on. Several calls of it would keep the compiler from writing it out.
#[inline(always)]
fn word<U: Units>(name: U, i: usize) -> u64
    requires { (i + 4 ≤ length (U.units name)) × (i ≤ 14) }
    ensures { result ≡ le_at 8 (unit_bytes (U.units name)) (2 * i) }
{
    u64::from(pair(name, i)) + (u64::from(pair(name, i + 2)) << 32)
}

// The same in an array of any length.
pub fn word_in(units: &[u32], i: usize) -> u64
    requires { (i + 4 ≤ length units.now) × Words units.now }
    ensures { result ≡ le_at 8 (unit_bytes units.now) (2 * i) }
{
    let low = units[i] + (units[i + 1] << 16);
    let high = units[i + 2] + (units[i + 3] << 16);
    u64::from(low) + (u64::from(high) << 32)
}

// CityHash64 of up to three units.
fn tiny_hash<U: Units>(name: U) -> u64
    requires { length (U.units name) < 4 }
    ensures { result ≡ city_hash64 (unit_bytes (U.units name)) }
{
    let n = name.count();
    if n == 0 {
        return hash_len0();
    }
    if n == 1 {
        let [low, high] = (name.unit(0) as u16).to_le_bytes();
        return hash_bytes(2, low, high, high);
    }
    hash_halves(2 * n, pair(name, 0), pair(name, n - 2))
}

// The same of up to eight, of the first and the last word, which are one of four units.
pub fn few_hash<U: Units>(name: U) -> u64
    requires { length (U.units name) ≤ 8 }
    ensures { result ≡ city_hash64 (unit_bytes (U.units name)) }
{
    let n = name.count();
    if 4 < n {
        return hash_two(2 * n, word(name, 0), word(name, n - 4));
    }
    if n == 4 {
        let first = word(name, 0);
        return hash_two(8, first, first);
    }
    tiny_hash(name)
}

// The same of nine to 16 in an array, of the first two and the last two words.
pub fn words_hash(name: Numbers) -> u64
    requires { (8 < length name.units.now) × (length name.units.now ≤ 16) }
    ensures { result ≡ city_hash64 (unit_bytes name.entry.units.now) }
{
    let n = name.count();
    hash_four(
        2 * n,
        word(name, 0),
        word(name, 4),
        word(name, n - 4),
        word(name, n - 8),
    )
}

// The same of up to 16 in an array.
pub fn array_hash(name: Numbers) -> u64
    requires { length name.units.now ≤ 16 }
    ensures { result ≡ city_hash64 (unit_bytes name.entry.units.now) }
{
    if 8 < name.count() {
        return words_hash(name);
    }
    few_hash(name)
}

// Puts a unit for each byte.
pub fn put_each<F: Fn(u8) -> u32>(units: &mut [u32], bytes: &[u8], unit: F)
    requires callable { F.IsAlwaysCallable unit }
    requires room { length bytes.now ≤ length units.old }
    ensures { (f : ℕ → ℕ) → ((b r : ℕ) → b < 256 → F.post unit b r → r ≡ f b) → Wrote units.old (map f bytes.now) units.new (length bytes.now) }
{
    for (i, b) in bytes.iter().enumerate() {
        units[i] = unit(*b);
    }
}

// Puts all units of a lowered name of one-byte text, in two loops: one that asks of each unit where it is from took longer.
fn put_all(units: &mut [u32], name: Narrow)
    requires { length name.base.now + length name.suffix.now ≤ length units.old }
    ensures { Wrote units.old (lowered name.entry.base.now ++ name.entry.suffix.now) units.new
        (length name.entry.base.now + length name.entry.suffix.now) }
{
    put_each(units, name.base, |b| lower_latin1(u32::from(b)));
    let k = name.base.len();
    put_each(&mut units[k..], name.suffix, |b| u32::from(b));
}

// CityHash64 of a lowered name of one-byte text that has nine to 16 units.
fn four_hash(name: Narrow) -> u64
    requires { (8 < length name.base.now + length name.suffix.now) × (length name.base.now + length name.suffix.now ≤ 16) }
    ensures { result ≡ city_hash64 (unit_bytes (lowered name.entry.base.now ++ name.entry.suffix.now)) }
{
    let mut units = [0u32; 16];
    put_all(&mut units, name);
    let n = name.count();
    words_hash(Numbers { units: &units[..n] })
}

// CityHash64 of a lowered name of one-byte text that has up to 16 units.
pub fn short_hash(name: Narrow) -> u64
    requires { length name.base.now + length name.suffix.now ≤ 16 }
    ensures { result ≡ city_hash64 (unit_bytes (lowered name.entry.base.now ++ name.entry.suffix.now)) }
{
    if 8 < name.count() {
        return four_hash(name);
    }
    few_hash(name)
}

// CityHash64 of a lowered name that is one byte of one-byte text.
pub fn one_hash(b: u8) -> u64
    ensures { result ≡ city_hash64 (unit_bytes (lowered (b ∷ []))) }
{
    hash_bytes(2, lower_byte(b), 0, 0)
}
