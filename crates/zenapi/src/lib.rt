// Layer 2's functions for tests and benchmarks in other languages. What is not there is answered by 2^64 - 1.

#![tactic(auto)]

ghost use Rattle.std.specs.Prelude.{◌≡◌, MatchResult};
ghost use Rattle.base.specs.Refusal.{number};

use base::refusal::Refusal;

// The answer for what is not there.
// Kept: this number, 0 for no refusal, and numbers for what is asked of (`what`, `which`, `field`): the C interface.
pub const ABSENT: u64 = u64::MAX;

// The number of the refusal that a check gives, or 0.
fn refused<T: Copy>(r: Result<T, Refusal>) -> u64
    ensures { MatchResult r (λ _. result ≡ 0) (λ e. result ≡ number e) }
{
    match r {
        Ok(_) => 0,
        Err(e) => u64::from(e.number()),
    }
}

pub mod package; // a package block
pub mod script; // a script block
pub mod names; // a package's imported ids, and what it costs to reach names
pub mod texts; // a package's names
