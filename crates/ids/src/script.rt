// Scripts whose units are lowered with no branch, so that the compiler can take many units a turn. What units are of is told by what is gathered of
// them while they are lowered.
ghost use Rattle.std.specs.Prelude.{◌≡◌, Bool, List, [], ◌∷◌, ◌++◌, ℕ};
ghost use Rattle.lower.specs.Ascii.{lower_ascii};
ghost use Rattle.rules.specs.Caseless.{caseless};
ghost use Rattle.rules.specs.Scripts.{is_latin, lower_latin, is_greek, lower_greek, LowersBy};
ghost use Rattle.rules.specs.ScriptLaws.{latin-script, greek_script, caseless-script};
ghost use Rattle.ids.specs.LoweredUnits.{all_are, bits_from};

use lower::ascii::lower_ascii;
use rules::caseless::is_caseless;
use rules::scripts::{is_greek, is_latin, lower_greek_unit, lower_latin_unit};
use std::marker::PhantomData;

// What is gathered of units while they are lowered as those of a script.
pub trait Script: Copy {
    ghost lowered: { ℕ → ℕ };

    ghost gathered: { List ℕ → Self };

    // Of no units.
    fn none() -> Self
        ensures { result ≡ gathered [] };

    // Of one unit more.
    fn with(self, u: u16) -> Self
        ensures { (us : List ℕ) → self ≡ gathered us → result ≡ gathered (us ++ u ∷ []) };

    // A unit lowered.
    fn lower(u: u16) -> u16
        ensures { result ≡ lowered u };
}

// A unit with A to Z lowered.
fn lower_ascii_unit(u: u16) -> u16
    ensures { result ≡ lower_ascii u }
{
    let v = lower_ascii(u32::from(u));
    v as u16
}

// All bits of units together, which tell what they look like. A to Z are lowered.
#[derive(Clone, Copy)]
pub struct Bits {
    pub bits: u16,
}

impl Script for Bits {
    ghost lowered = { lower_ascii };

    ghost gathered = { λ us. record { bits = bits_from 0 us } };

    fn none() -> Bits {
        Bits { bits: 0 }
    }

    fn with(self, u: u16) -> Bits {
        Bits {
            bits: self.bits | u,
        }
    }

    fn lower(u: u16) -> u16 {
        lower_ascii_unit(u)
    }
}

// A script that a test tells: lowering is right where it holds.
pub trait Test: Copy {
    ghost tests: { ℕ → Bool };

    ghost lowered: { ℕ → ℕ };

    // Whether a unit is of it.
    fn is(u: u16) -> bool
        ensures { result ≡ tests u };

    // A unit of it lowered.
    fn lower(u: u16) -> u16
        ensures { result ≡ lowered u };

    ghost right: { LowersBy tests lowered };
}

// Whether units are all of a script.
#[derive(Clone, Copy)]
pub struct All<T: Test> {
    pub all: bool,
    of: PhantomData<T>,
}

impl<T: Test> Script for All<T> {
    ghost lowered = { T.lowered };

    ghost gathered = { λ us. record { all = all_are T.tests us; of = record {} } };

    fn none() -> All<T> {
        All {
            all: true,
            of: PhantomData,
        }
    }

    fn with(self, u: u16) -> All<T> {
        All {
            all: self.all & T::is(u),
            of: PhantomData,
        }
    }

    fn lower(u: u16) -> u16 {
        T::lower(u)
    }
}

// Latin.
#[derive(Clone, Copy)]
pub struct Latin;

impl Test for Latin {
    ghost tests = { is_latin };

    ghost lowered = { lower_latin };

    ghost right = { latin-script };

    fn is(u: u16) -> bool {
        is_latin(u)
    }

    fn lower(u: u16) -> u16 {
        lower_latin_unit(u)
    }
}

// Greek or Cyrillic.
#[derive(Clone, Copy)]
pub struct Greek;

impl Test for Greek {
    ghost tests = { is_greek };

    ghost lowered = { lower_greek };

    ghost right = { greek_script };

    fn is(u: u16) -> bool {
        is_greek(u)
    }

    fn lower(u: u16) -> u16 {
        lower_greek_unit(u)
    }
}

// What has no letter to lower but A to Z.
#[derive(Clone, Copy)]
pub struct Caseless;

impl Test for Caseless {
    ghost tests = { caseless };

    ghost lowered = { lower_ascii };

    ghost right = { caseless-script };

    fn is(u: u16) -> bool {
        is_caseless(u32::from(u))
    }

    fn lower(u: u16) -> u16 {
        lower_ascii_unit(u)
    }
}
