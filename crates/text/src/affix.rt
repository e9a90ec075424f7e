// What the base of a name starts and ends with.
ghost use Rattle.std.specs.Prelude.{◌≡◌, true, ◌+◌, ◌≤◌, length, drop};
ghost use Rattle.text.specs.Parts.{base_in};
ghost use Rattle.text.specs.Units.{units_in};
ghost use Rattle.text.specs.Affix.{starts_with, ends_with, all_ascii};

use super::text::{Part, Text};

// Whether the units of a part from a place on start with an ASCII text.
#[tactic(auto, using(crate::specs::UnitsLaws::units_of_bound))]
fn units_match(part: Part, from: usize, affix: &[u8]) -> bool
    requires { from + length affix.now ≤ length (units_in part) }
    ensures { result ≡ starts_with (drop from (units_in part.entry)) affix.now }
{
    for (i, b) in affix.iter().enumerate() {
        if part.unit(from + i) != u32::from(*b) {
            return false;
        }
    }
    true
}

// Whether the base starts with an ASCII text.
pub fn starts_with(text: Text, affix: &[u8]) -> bool
    requires { all_ascii affix.now ≡ true }
    ensures { result ≡ starts_with (base_in text.entry.part) affix.now }
{
    if text.part.count() < affix.len() {
        return false;
    }
    units_match(text.part, 0, affix)
}

// Whether the base ends in an ASCII text.
pub fn ends_with(text: Text, affix: &[u8]) -> bool
    requires { all_ascii affix.now ≡ true }
    ensures { result ≡ ends_with (base_in text.entry.part) affix.now }
{
    let n = text.part.count();
    if n < affix.len() {
        return false;
    }
    units_match(text.part, n - affix.len(), affix)
}
