// The hash of a chain's path: of the whole text where it is short, else of its last 64 bytes, and then of up to 1,024 at a time from the first on,
// as CityHash64 asks for them.
ghost use Rattle.std.specs.Prelude.{◌≡◌, ◌+◌, ◌-◌, ◌*◌, ◌/◌, ◌≤◌, ◌<◌, length, take, drop};
ghost use Rattle.city.specs.City.{turns, start, city_hash64};
ghost use Rattle.base.specs.Number.{le_at};
ghost use Rattle.text.specs.Utf16.{unit_bytes};
ghost use Rattle.hashes.specs.Chain.{chain_units};

use super::units::PathUnits;
use base::number::le64;
use city::city::{State, city_hash64};

// A turn over each 64 bytes.
fn turns_over(window: &[u8], t: State) -> State
    ensures { result ≡ turns (length window.now / 64) window.now t }
{
    let mut u = t;
    for chunk in window.chunks_exact(64) {
        u = u.one_turn(chunk);
    }
    u
}

impl<'a> PathUnits<'a> {
    // The hash of a path of up to 128 units.
    fn short_hash(&self) -> u64
        requires { self.now.count ≤ 128 }
        ensures { result ≡ city_hash64 (unit_bytes (chain_units self.now.names.now self.now.chain.now)) }
    {
        let mut text = [0u8; 256];
        let size = self.put(&mut text, 0, self.count);
        city_hash64(&text[..size])
    }

    // The first word of a path.
    fn first_word(&self) -> u64
        requires { 4 ≤ self.now.count }
        ensures { result ≡ le_at 8 (unit_bytes (chain_units self.now.names.now self.now.chain.now)) 0 }
    {
        let mut word = [0u8; 8];
        self.put(&mut word, 0, 4);
        le64(&word, 0)
    }

    // The state before the first turn.
    fn state_before(&self) -> State
        requires { 32 ≤ self.now.count }
        ensures { result ≡ start (2 * self.now.count)
            (take 64 (drop (2 * self.now.count - 64) (unit_bytes (chain_units self.now.names.now self.now.chain.now))))
            (le_at 8 (unit_bytes (chain_units self.now.names.now self.now.chain.now)) 0) }
    {
        let mut last = [0u8; 64];
        self.put(&mut last, self.count - 32, 32);
        let first = self.first_word();
        State::first_state(2 * (self.count as u64), &last, first)
    }

    // Up to 16 turns over the units from a place on.
    fn turns_from(&self, from: usize, count: usize, t: State) -> State
        requires { (from + 32 * count ≤ self.now.count) × (count ≤ 16) }
        ensures { result ≡ turns count (drop (2 * from) (unit_bytes (chain_units self.now.names.now self.now.chain.now))) t }
    {
        let mut window = [0u8; 1024];
        let size = self.put(&mut window, from, 32 * count);
        turns_over(&window[..size], t)
    }

    // The hash of a path of more than 32 units: up to 16 turns at once.
    fn long_hash(&self) -> u64
        requires { 32 < self.now.count }
        ensures { result ≡ city_hash64 (unit_bytes (chain_units self.now.names.now self.now.chain.now)) }
    {
        let mut t = self.state_before();
        let turns = (2 * self.count - 1) / 64;
        for i in (0..turns).step_by(16) {
            t = self.turns_from(32 * i, (turns - i).min(16), t);
        }
        t.last_mix()
    }

    // The hash of the path.
    pub fn hash(&self) -> u64
        ensures { result ≡ city_hash64 (unit_bytes (chain_units self.now.names.now self.now.chain.now)) }
    {
        if self.count <= 128 {
            return self.short_hash();
        }
        self.long_hash()
    }
}
