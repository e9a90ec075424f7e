// Bytes tested and measured: whether they are UTF-8, how many UTF-16 units the text has, whether it fits Latin-1.
ghost use Rattle.std.specs.Prelude.{◌≡◌};
ghost use Rattle.text.specs.Utf8.{from_utf8};
ghost use Rattle.decode.specs.Measure.{measured};

use super::step::step_at;

// Of a text: how many units it has and whether it fits Latin-1.
#[derive(Clone, Copy)]
pub struct Measured {
    pub units: usize,
    pub latin: bool,
}

// The text of some bytes, measured a few characters at a time, or none where they are no UTF-8.
// Kept: `while`, since the text decides how far a turn goes: no range has such a step.
pub fn measure(s: &[u8]) -> Option<Measured>
    ensures { result ≡ measured (from_utf8 s.now) }
{
    let mut units = 0;
    let mut latin = true;
    let mut at = 0;
    while at < s.len() {
        let step = step_at(s, at)?;
        units += step.units;
        latin &= step.latin;
        at += step.size;
    }
    Some(Measured { units, latin })
}
