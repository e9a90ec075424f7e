// Whether lowering A to Z is enough.
ghost use Rattle.std.specs.Prelude.{◌≡◌};
ghost use Rattle.rules.specs.Caseless.{caseless};

// Whether a unit is ASCII or of one of three great ranges without capitals. The compiler takes many units a turn.
pub fn is_caseless(u: u32) -> bool
    ensures { result ≡ caseless u }
{
    (u < 0x80)
        | (0x590..0x10A0).contains(&u)
        | (0x2CF3..0xA640).contains(&u)
        | (0xA7F6..0xD800).contains(&u)
}
