// Lowering below U+0180, with no table at hand: ASCII, Latin-1, Latin Extended-A.
ghost use Rattle.std.specs.Prelude.{◌≡◌, ◌≤◌, ◌<◌};
ghost use Rattle.lower.specs.Lower.{lower};

use lower::ascii::lower_ascii;

// The letters of Latin-1: C0 to DE are capitals, but for the multiplication sign D7.
fn lower_letter(c: u32) -> u32
    requires { (0xC0 ≤ c) × (c < 0x100) }
    ensures { result ≡ lower c }
{
    match c {
        0xD7 | 0xDF.. => c,
        _ => c + 32,
    }
}

// Latin Extended-A: a capital comes before its small letter, but for the dotted I, which stays, and Y with diaeresis.
fn lower_extended(c: u32) -> u32
    requires { (0x100 ≤ c) × (c < 0x180) }
    ensures { result ≡ lower c }
{
    match c {
        0x130 => c,
        ..0x138 => c + (c + 1) % 2,
        ..0x149 => c + c % 2,
        ..0x178 => c + (c + 1) % 2,
        0x178 => 0xFF,
        0x17F => c,
        _ => c + c % 2,
    }
}

// The lower-case form of a character below U+0180.
pub fn lower_latin(c: u32) -> u32
    requires { c < 0x180 }
    ensures { result ≡ lower c }
{
    match c {
        ..0xC0 => lower_ascii(c),
        ..0x100 => lower_letter(c),
        _ => lower_extended(c),
    }
}

// The lower-case form of a byte of Latin-1: 32 is added to A to Z and to C0 to DE but for the multiplication sign D7, with no branch, so that
// the compiler can take many bytes a turn.
pub fn lower_byte(b: u8) -> u8
    ensures { result ≡ lower b }
{
    let ascii = u8::from((65..=90).contains(&b));
    let first = u8::from((0xC0..=0xD6).contains(&b));
    let second = u8::from((0xD8..=0xDE).contains(&b));
    b + 32 * (ascii + first + second)
}
