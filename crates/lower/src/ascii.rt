// Lowering one character: A to Z.
ghost use Rattle.std.specs.Prelude.{◌≡◌};
ghost use Rattle.lower.specs.Ascii.{lower_ascii};

// A to Z become a to z; every other value stays. 32 times the outcome of the range test is added, with no branch.
pub fn lower_ascii(c: u32) -> u32
    ensures { result ≡ lower_ascii c }
{
    let is_capital = (65..=90).contains(&c);
    c + 32 * u32::from(is_capital)
}
