// The limits that a call may have (document 02, Q-5).
ghost use Rattle.std.specs.Prelude.{◌≡◌, true, false, MatchOption};
ghost use Rattle.meaning.specs.Limited.{in_range};
ghost use Rattle.meaning.specs.Resolve.{limits_of};

use resolve::limits::Limits;

// The limits of so many lookups and objects, where these are 1 to 64 and 1 to 65.
pub fn limits_of(lookups: u32, objects: u32) -> Option<Limits>
    ensures { MatchOption result (in_range (limits_of lookups objects) ≡ false)
        (λ m. (in_range (limits_of lookups objects) ≡ true) × (m.lookups ≡ lookups) × (m.objects ≡ objects)) }
{
    if (1..=64).contains(&lookups) && (1..=65).contains(&objects) {
        Some(Limits {
            lookups: lookups as usize,
            objects: objects as usize,
        })
    } else {
        None
    }
}
