// The id of a name: CityHash64 of its lowered UTF-16LE form. A long text stands nowhere in one piece: its units are read
// from the block and the suffix as the hash asks for them, 64 bytes at a time.
ghost use Rattle.std.specs.Prelude.{◌≡◌, true, ℕ, map, min, ◌++◌, ◌+◌, ◌-◌, ◌*◌, ◌^◌, ◌≤◌, ◌<◌, length, take, drop};
ghost use Rattle.lower.specs.Lower.{lowered};
ghost use Rattle.base.specs.Number.{le_at};
ghost use Rattle.base.specs.NumberLaws.{Bytes};
ghost use Rattle.base.specs.Output.{Wrote};
ghost use Rattle.text.specs.Utf16.{encode16, unit_bytes};
ghost use Rattle.text.specs.Name.{base};
ghost use Rattle.text.specs.Parts.{base_in, rendered_in};
ghost use Rattle.text.specs.Units.{units_in};
ghost use Rattle.city.specs.City.{city_hash64};
ghost use Rattle.ids.specs.LoweredUnits.{name_units};
ghost use Rattle.ids.specs.Id.{id_of};

use super::ascii::{is_tried, put_ascii};
use super::short::{Narrow, Numbers, Units, array_hash, one_hash, short_hash};
use super::wide::{Wide, WideName, put_wide};
use base::number::le64;
use city::city::{State, city_hash64};
use rules::latin::lower_byte;
use text::name::put_suffix;
use text::text::Text;
use text::units::put_unit;

// A name: the text of its base, and its suffix as it stands.
#[derive(Clone, Copy)]
pub struct Name<'a> {
    pub text: Text<'a>,
    pub suffix: &'a [u8],
    ghost fits: { Bytes suffix.now },
}

impl<'a> Name<'a> {
    // How many units it has, lowered.
    pub fn count(self) -> usize
        ensures { result ≡ length (name_units (base_in self.entry.text.part) self.entry.suffix.now) }
    {
        self.text.part.count() + self.suffix.len()
    }
}

// A unit for each byte, in UTF-16LE.
fn put_bytes<F: Fn(u8) -> u8>(out: &mut [u8], bytes: &[u8], lower: F)
    requires callable { F.IsAlwaysCallable lower }
    requires room { 2 * length bytes.now ≤ length out.old }
    ensures { (f : ℕ → ℕ) → ((b r : ℕ) → b < 256 → F.post lower b r → r ≡ f b) → Wrote out.old (unit_bytes (map f bytes.now)) out.new (2 * length bytes.now) }
{
    for (i, b) in bytes.iter().enumerate() {
        put_unit(out, i, u16::from(lower(*b)));
    }
}

// The units of bytes of one-byte text, lowered, in UTF-16LE.
fn put_narrow(out: &mut [u8], bytes: &[u8])
    requires { 2 * length bytes.now ≤ length out.old }
    ensures { Wrote out.old (unit_bytes (lowered bytes.now)) out.new (2 * length bytes.now) }
{
    put_bytes(out, bytes, |b| lower_byte(b));
}

// The n units of the lowered base of a name from a place on. Where there are none the place may lie behind the base.
fn put_part(out: &mut [u8], text: Text, from: usize, n: usize)
    requires { (n ≤ length (units_in text.part) - from) × (2 * n ≤ length out.old) }
    ensures { Wrote out.old (unit_bytes (take n (drop from (encode16 (lowered (base_in text.entry.part)))))) out.new (2 * n) }
{
    if n == 0 {
        return;
    }
    if text.part.wide {
        put_wide(
            out,
            Wide {
                bytes: text.part.bytes,
            },
            from,
            n,
        );
        return;
    }
    put_narrow(out, &text.part.bytes[from..from + n]);
}

// The n units of a lowered name from a place on, in UTF-16LE, of its base and of its suffix.
fn put_mixed(out: &mut [u8], name: Name, from: usize, n: usize)
    requires { (from + n ≤ length (name_units (base_in name.text.part) name.suffix.now)) × (2 * n ≤ length out.old) }
    ensures { Wrote out.old (unit_bytes (take n (drop from (name_units (base_in name.entry.text.part) name.entry.suffix.now)))) out.new (2 * n) }
{
    let count = name.text.part.count();
    let k = n.min(count.saturating_sub(from));
    put_part(out, name.text, from, k);
    if k < n {
        let rest = from + k - count;
        put_bytes(&mut out[2 * k..], &name.suffix[rest..rest + (n - k)], |b| b);
    }
}

// The n units of a lowered name from a place on, in UTF-16LE. Those of one-byte text are written at once.
pub fn put_units(out: &mut [u8], name: Name, from: usize, n: usize) -> usize
    requires { (from + n ≤ length (name_units (base_in name.text.part) name.suffix.now)) × (2 * n ≤ length out.old) }
    ensures { Wrote out.old (unit_bytes (take n (drop from (name_units (base_in name.entry.text.part) name.entry.suffix.now)))) out.new result }
{
    let part = name.text.part;
    if !part.wide && from + n <= part.bytes.len() {
        put_narrow(out, &part.bytes[from..from + n]);
        return 2 * n;
    }
    put_mixed(out, name, from, n);
    2 * n
}

// The 64 bytes of the 32 units of a lowered name from a place on.
// Kept: the two ways, where `put_units(&mut chunk, name, from, 32)` would do: the compiler keeps `put_mixed` apart only while it has two callers, and
// names of 7 and 8 letters take a fifth more otherwise.
fn chunk_at(name: Name, from: usize) -> [u8; 64]
    requires { from + 32 ≤ length (name_units (base_in name.text.part) name.suffix.now) }
    ensures { result ≡ unit_bytes (take 32 (drop from (name_units (base_in name.entry.text.part) name.entry.suffix.now))) }
{
    let mut chunk = [0u8; 64];
    let part = name.text.part;
    if !part.wide && from + 32 <= part.bytes.len() {
        put_narrow(&mut chunk, &part.bytes[from..from + 32]);
        return chunk;
    }
    put_mixed(&mut chunk, name, from, 32);
    chunk
}

// The word of the first four units of a lowered name.
fn first_word(name: Name) -> u64
    requires { 4 ≤ length (name_units (base_in name.text.part) name.suffix.now) }
    ensures { result ≡ le_at 8 (unit_bytes (name_units (base_in name.entry.text.part) name.entry.suffix.now)) 0 }
{
    let mut word = [0u8; 8];
    put_units(&mut word, name, 0, 4);
    le64(&word, 0)
}

// CityHash64 of a lowered name of more than 32 units.
fn long_hash(name: Name) -> u64
    requires { (32 < length (name_units (base_in name.text.part) name.suffix.now)) × (length (name_units (base_in name.text.part) name.suffix.now) < 2 ^ 33) }
    ensures { result ≡ city_hash64 (unit_bytes (name_units (base_in name.entry.text.part) name.entry.suffix.now)) }
{
    let n = name.count();
    let last = chunk_at(name, n - 32);
    let first = first_word(name);
    let mut t = State::first_state(2 * (n as u64), &last, first);
    for k in 0..(2 * n - 1) / 64 {
        let chunk = chunk_at(name, 32 * k);
        t = t.one_turn(&chunk);
    }
    t.last_mix()
}

// The units of a lowered name of one-byte text from a place on, behind those before it. Each unit is one number, of which both bytes are
// written: that is one store.
fn put_end(out: &mut [u8], name: Narrow, from: usize)
    requires { (from ≤ length name.base.now + length name.suffix.now) × (2 * (length name.base.now + length name.suffix.now) ≤ length out.old)
        × (take (2 * from) out.old ≡ unit_bytes (take from (lowered name.base.now ++ name.suffix.now))) }
    ensures { Wrote out.old (unit_bytes (lowered name.entry.base.now ++ name.entry.suffix.now)) out.new
        (2 * (length name.entry.base.now + length name.entry.suffix.now)) }
{
    for i in from..name.count() {
        put_unit(out, i, name.unit(i) as u16);
    }
}

// CityHash64 of a lowered name of one-byte text whose units fill up to N bytes, put as a whole. Eights of its base are lowered at once.
fn whole_hash<const N: usize>(name: Narrow) -> u64
    requires { (2 * (length name.base.now + length name.suffix.now) ≤ N) × (N ≤ 128) }
    ensures { result ≡ city_hash64 (unit_bytes (lowered name.entry.base.now ++ name.entry.suffix.now)) }
{
    let mut chunk = [0u8; N];
    let k = name.base.len() / 8 * 8;
    put_narrow(&mut chunk, &name.base[..k]);
    put_end(&mut chunk, name, k);
    city_hash64(&chunk[..2 * name.count()])
}

// CityHash64 of a lowered name of one-byte text that has up to 32 units: by words where it has few, or up to 16 and a base that has no eight to lower
// at once. Up to eight is asked first: so the shortest names pass the fewest branches.
fn narrow_hash(name: Narrow) -> u64
    requires { length name.base.now + length name.suffix.now ≤ 32 }
    ensures { result ≡ city_hash64 (unit_bytes (lowered name.entry.base.now ++ name.entry.suffix.now)) }
{
    let n = name.count();
    if n <= 8 || (n <= 16 && name.base.len() < 8) {
        return short_hash(name);
    }
    whole_hash::<64>(name)
}

// CityHash64 of a lowered name of wide text that has up to 32 units, by its bytes.
fn chunk_hash(name: WideName) -> u64
    requires { length (name_units (base true name.text.bytes.now) name.suffix.now) ≤ 32 }
    ensures { result ≡ city_hash64 (unit_bytes (name_units (base true name.entry.text.bytes.now) name.entry.suffix.now)) }
{
    let mut chunk = [0u8; 64];
    let all = Name {
        text: Text::from(name.text),
        suffix: name.suffix,
    };
    let size = put_units(&mut chunk, all, 0, all.count());
    city_hash64(&chunk[..size])
}

// The same, by words where it is short and ASCII.
fn wide_hash(name: WideName) -> u64
    requires { length (name_units (base true name.text.bytes.now) name.suffix.now) ≤ 32 }
    ensures { result ≡ city_hash64 (unit_bytes (name_units (base true name.entry.text.bytes.now) name.entry.suffix.now)) }
{
    let mut units = [0u32; 16];
    if is_tried(name.text.bytes, name.count())
        && let Some(n) = put_ascii(&mut units, name)
    {
        return array_hash(Numbers { units: &units[..n] });
    }
    chunk_hash(name)
}

// CityHash64 of a lowered name. One-byte text with a number is put as a whole up to 64 units: `long_hash` would put its end twice.
fn units_hash(name: Name) -> u64
    requires { (length name.text.part.bytes.now < 2 ^ 32) × (length name.suffix.now < 2 ^ 32) }
    ensures { result ≡ city_hash64 (unit_bytes (name_units (base_in name.entry.text.part) name.entry.suffix.now)) }
{
    let part = name.text.part;
    let n = name.count();
    let narrow = Narrow {
        base: part.bytes,
        suffix: name.suffix,
    };
    if n <= 32 {
        if part.wide {
            return wide_hash(WideName {
                text: Wide { bytes: part.bytes },
                suffix: name.suffix,
            });
        }
        return narrow_hash(narrow);
    }
    if !part.wide && n <= 64 && part.bytes.len() < n {
        return whole_hash::<128>(narrow);
    }
    long_hash(name)
}

// The id of a name. One letter is hashed before anything is laid out for more.
pub fn name_id(text: Text, number: u32) -> u64
    requires { length text.part.bytes.now < 2 ^ 32 }
    ensures { result ≡ id_of (rendered_in text.entry.part number) }
{
    if let [b] = text.part.bytes
        && !text.part.wide
        && number == 0
    {
        return one_hash(*b);
    }
    let mut suffix = [0u8; 24];
    let n = put_suffix(&mut suffix, number);
    units_hash(Name {
        text,
        suffix: &suffix[..n],
    })
}
