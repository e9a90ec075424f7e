// Lowering by rules, with no table at hand: none where the table is to be asked. Each rule is proved by a computed test over its characters, and
// what stays by one over the table.
ghost use Rattle.std.specs.Prelude.{◌≡◌, ◌≤◌, ◌<◌};
ghost use Rattle.lower.specs.Lower.{lower};
ghost use Rattle.rules.specs.Quick.{quick, asked};

use super::latin::lower_latin;

// Latin Extended-B: mostly a capital before its small letter.
fn lower_late(c: u32) -> Option<u32>
    requires { (0x180 ≤ c) × (c < 0x250) }
    ensures { result ≡ asked (quick c) }
{
    match c {
        ..0x1A0 => None,
        ..0x1A6 => Some(c + (c + 1) % 2),
        ..0x1AF => None,
        ..0x1B1 => Some(c + c % 2),
        ..0x1CD => None,
        ..0x1DD => Some(c + c % 2),
        ..0x1F0 => Some(c + (c + 1) % 2),
        ..0x1F8 => None,
        ..0x220 => Some(c + (c + 1) % 2),
        ..0x222 => None,
        ..0x234 => Some(c + (c + 1) % 2),
        ..0x23A => Some(c),
        ..0x246 => None,
        _ => Some(c + (c + 1) % 2),
    }
}

// Greek before Alpha: capitals with an accent.
fn lower_accented(c: u32) -> Option<u32>
    requires { (0x370 ≤ c) × (c < 0x391) }
    ensures { result ≡ asked (quick c) }
{
    match c {
        ..0x386 => None,
        ..0x387 => Some(c + 38),
        ..0x388 => Some(c),
        ..0x38B => Some(c + 37),
        ..0x38C => Some(c),
        ..0x38D => Some(c + 64),
        ..0x38E => Some(c),
        ..0x390 => Some(c + 63),
        _ => Some(c),
    }
}

// Greek from Alpha on.
fn lower_greek(c: u32) -> Option<u32>
    requires { (0x391 ≤ c) × (c < 0x400) }
    ensures { result ≡ asked (quick c) }
{
    match c {
        ..0x3A2 => Some(c + 32),
        ..0x3A3 => Some(c),
        ..0x3AC => Some(c + 32),
        ..0x3CF => Some(c),
        ..0x3D8 => None,
        ..0x3F0 => Some(c + (c + 1) % 2),
        _ => None,
    }
}

// Kept: the ranges are a `requires` of each step of one search; a type for each would be made in each arm, as `Further { c }.lowered()`.

// Cyrillic for old texts and further languages, and Armenian.
fn lower_further(c: u32) -> Option<u32>
    requires { (0x460 ≤ c) × (c < 0x590) }
    ensures { result ≡ asked (quick c) }
{
    match c {
        ..0x482 => Some(c + (c + 1) % 2),
        ..0x48A => Some(c),
        ..0x4C0 => Some(c + (c + 1) % 2),
        ..0x4C1 => Some(c + 15),
        ..0x4CF => Some(c + c % 2),
        ..0x530 => Some(c + (c + 1) % 2),
        ..0x531 => Some(c),
        ..0x557 => Some(c + 48),
        _ => Some(c),
    }
}

// Cyrillic and Armenian: first what Russian and its neighbours have.
fn lower_cyrillic(c: u32) -> Option<u32>
    requires { (0x400 ≤ c) × (c < 0x590) }
    ensures { result ≡ asked (quick c) }
{
    match c {
        ..0x410 => Some(c + 80),
        ..0x430 => Some(c + 32),
        ..0x460 => Some(c),
        _ => lower_further(c),
    }
}

// From Georgian to the phonetic extensions.
fn lower_old(c: u32) -> Option<u32>
    requires { (0x10A0 ≤ c) × (c < 0x1E00) }
    ensures { result ≡ asked (quick c) }
{
    match c {
        ..0x10CE => None,
        ..0x13A0 => Some(c),
        ..0x13F6 => None,
        ..0x1C89 => Some(c),
        ..0x1CC0 => None,
        _ => Some(c),
    }
}

// Latin Extended Additional: Vietnamese.
fn lower_additional(c: u32) -> Option<u32>
    requires { (0x1E00 ≤ c) × (c < 0x1F00) }
    ensures { result ≡ asked (quick c) }
{
    match c {
        ..0x1E96 => Some(c + (c + 1) % 2),
        ..0x1E9E => Some(c),
        ..0x1E9F => Some(0xDF),
        ..0x1EA0 => Some(c),
        _ => Some(c + (c + 1) % 2),
    }
}

// From Greek Extended to Coptic: mostly signs.
fn lower_sign(c: u32) -> Option<u32>
    requires { (0x1F00 ≤ c) × (c < 0x2CF3) }
    ensures { result ≡ asked (quick c) }
{
    match c {
        ..0x2000 => None,
        ..0x2126 => Some(c),
        ..0x2184 => None,
        ..0x24B6 => Some(c),
        ..0x24D0 => None,
        ..0x2C00 => Some(c),
        _ => None,
    }
}

// From Deseret to Vithkuqi.
fn lower_near(c: u32) -> u32
    requires { (0x10400 ≤ c) × (c < 0x10C80) }
    ensures { result ≡ lower c }
{
    match c {
        ..0x1_0428 => c + 40,
        ..0x1_04B0 => c,
        ..0x1_04D4 => c + 40,
        ..0x1_0570 => c,
        ..0x1_057B => c + 39,
        ..0x1_057C => c,
        ..0x1_058B => c + 39,
        ..0x1_058C => c,
        ..0x1_0593 => c + 39,
        ..0x1_0594 => c,
        ..0x1_0596 => c + 39,
        _ => c,
    }
}

// From Old Hungarian to Adlam.
fn lower_far(c: u32) -> u32
    requires { (0x10C80 ≤ c) × (c < 0x1E922) }
    ensures { result ≡ lower c }
{
    match c {
        ..0x1_0CB3 => c + 64,
        ..0x1_0D50 => c,
        ..0x1_0D66 => c + 32,
        ..0x1_18A0 => c,
        ..0x1_18C0 => c + 32,
        ..0x1_6E40 => c,
        ..0x1_6E60 => c + 32,
        ..0x1_6EA0 => c,
        ..0x1_6EB9 => c + 27,
        ..0x1_E900 => c,
        _ => c + 34,
    }
}

// Below U+0590.
fn lower_low(c: u32) -> Option<u32>
    requires { c < 0x590 }
    ensures { result ≡ asked (quick c) }
{
    if 0x3FF < c {
        return lower_cyrillic(c);
    }
    if 0x390 < c {
        return lower_greek(c);
    }
    match c {
        ..0x180 => Some(lower_latin(c)),
        ..0x250 => lower_late(c),
        ..0x370 => Some(c),
        _ => lower_accented(c),
    }
}

// From Hebrew to Coptic.
fn lower_middle(c: u32) -> Option<u32>
    requires { (0x590 ≤ c) × (c < 0x2CF3) }
    ensures { result ≡ asked (quick c) }
{
    match c {
        ..0x10A0 => Some(c),
        ..0x1E00 => lower_old(c),
        ..0x1F00 => lower_additional(c),
        _ => lower_sign(c),
    }
}

// The lower-case form of a character of one unit; none where the table is to be asked.
pub fn lower_quick(c: u32) -> Option<u32>
    requires { c < 0x10000 }
    ensures { result ≡ asked (quick c) }
{
    match c {
        ..0x590 => lower_low(c),
        ..0x2CF3 => lower_middle(c),
        ..0xA640 => Some(c),
        ..0xA7F6 => None,
        ..0xFF21 => Some(c),
        ..0xFF3B => Some(c + 32),
        _ => Some(c),
    }
}

// The lower-case form of a character of two units: all of them have rules.
pub fn lower_pair(c: u32) -> u32
    requires { (0x10000 ≤ c) × (c < 0x110000) }
    ensures { result ≡ lower c }
{
    match c {
        0x1_E922.. => c,
        ..0x1_0400 => c,
        ..0x1_0C80 => lower_near(c),
        _ => lower_far(c),
    }
}
