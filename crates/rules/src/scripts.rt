// Lowering a unit by its script, with no branch, so that the compiler can take many units a turn. Each sum is right where its test says so.
ghost use Rattle.std.specs.Prelude.{◌≡◌, cond, ◌&&◌, ◌≤◌, ◌<◌, leb, ltb};
ghost use Rattle.rules.specs.Quick.{among};
ghost use Rattle.rules.specs.Scripts.{latin_capitals, latin_pairs, latin_odds, is_latin, latin_turn, lower_latin, step_in, greek_capitals, greek_steps, is_greek, lower_greek};

// A number or 0.
// Kept: no Option: these are terms of a sum that has no branch, so that many units go a turn.
fn pick(t: bool, d: u16) -> u16
    ensures { (result ≡ cond t d 0) × (result ≤ d) }
{
    if t { d } else { 0 }
}

// Kept: each script, and `is_caseless` in caseless.rt, has its own ranges as `|` of tests. Tried in `is_greek`:
// `GREEKS.iter().fold(false, |t, r| t | r.contains(&u))` over a const of type
// `[Range<u16>; 7]`, which names the ranges apart from their test and saves none: the check accepts it all but the `ensures`, of which `search` found no
// proof in three tries. So its speed was not measured.

// A capital of Latin 32 below its small letter.
fn latin_capital(u: u16) -> bool
    ensures { result ≡ among latin_capitals u }
{
    (0x41..0x5B).contains(&u) | (0xC0..0xD7).contains(&u) | (0xD8..0xDF).contains(&u)
}

// A letter of Latin whose pair starts with an odd number.
fn latin_odd(u: u16) -> bool
    ensures { result ≡ among latin_odds u }
{
    (0x130..0x131).contains(&u)
        | (0x138..0x149).contains(&u)
        | (0x179..0x17F).contains(&u)
        | (0x1AF..0x1B1).contains(&u)
}

// A letter of Latin next to its other form.
fn latin_pair(u: u16) -> bool
    ensures { result ≡ among latin_pairs u }
{
    (0x100..0x180).contains(&u)
        | (0x1A0..0x1A2).contains(&u)
        | (0x1AF..0x1B1).contains(&u)
        | (0x1E00..0x1E96).contains(&u)
        | (0x1EA0..0x1F00).contains(&u)
}

// 1 at a capital of such a pair.
fn latin_turn(u: u16) -> u16
    ensures { (result ≡ latin_turn u) × (result < 2) }
{
    (u % 2 + (1 + pick(latin_odd(u), 1))) % 2
}

// Whether a unit is of Latin, or general punctuation.
pub fn is_latin(u: u16) -> bool
    ensures { result ≡ is_latin u }
{
    (0..0x178).contains(&u)
        | (0x179..0x17F).contains(&u)
        | (0x1A0..0x1A2).contains(&u)
        | (0x1AF..0x1B1).contains(&u)
        | (0x1E00..0x1E96).contains(&u)
        | (0x1EA0..0x1F00).contains(&u)
        | (0x2000..0x2126).contains(&u)
}

// A unit of Latin lowered.
pub fn lower_latin_unit(u: u16) -> u16
    ensures { (result ≡ lower_latin u) × (result < 65536) }
{
    let step = pick(latin_capital(u), 32) + pick(latin_pair(u), latin_turn(u));
    u + step
}

// A capital of ASCII, Greek or Cyrillic 32 below its small letter.
fn greek_capital(u: u16) -> bool
    ensures { result ≡ among greek_capitals u }
{
    (0x41..0x5B).contains(&u) | (0x391..0x3AC).contains(&u) | (0x410..0x430).contains(&u)
}

// How far another capital of Greek or Cyrillic is below its small letter; 0 of any other unit.
// Kept: no Option: as `pick`.
fn greek_step(u: u16) -> u16
    ensures { (result ≡ step_in greek_steps u) × (result ≤ 282) }
{
    pick((0x386..0x387).contains(&u), 38)
        + pick((0x388..0x38B).contains(&u), 37)
        + pick((0x38C..0x38D).contains(&u), 64)
        + pick((0x38E..0x390).contains(&u), 63)
        + pick((0x400..0x410).contains(&u), 80)
}

// Whether a unit is ASCII, Greek or Cyrillic.
pub fn is_greek(u: u16) -> bool
    ensures { result ≡ is_greek u }
{
    (0..0xC0).contains(&u)
        | (0x386..0x387).contains(&u)
        | (0x388..0x38B).contains(&u)
        | (0x38C..0x38D).contains(&u)
        | (0x38E..0x3A2).contains(&u)
        | (0x3A3..0x3CF).contains(&u)
        | (0x400..0x460).contains(&u)
}

// A unit of ASCII, Greek or Cyrillic lowered.
pub fn lower_greek_unit(u: u16) -> u16
    ensures { (result ≡ lower_greek u) × (result < 65536) }
{
    let step = pick(greek_capital(u), 32) + greek_step(u);
    u + step
}
