// A few characters of UTF-8 passed at once: eight of one byte or four, four of three or two of four where they are common ones, else one.
ghost use Rattle.std.specs.Prelude.{◌≡◌, cond, ◌&&◌, ◌+◌, ◌≤◌, ◌<◌, eqb, length, get_or};
ghost use Rattle.decode.specs.Step.{common_at, plane_at, Stepped};

use super::chars::{is_common, quick_char, within};
use super::eight::ascii_at;

// How many bytes are passed, how many units they add and whether they fit Latin-1.
#[derive(Clone, Copy)]
pub struct Step {
    pub size: usize,
    pub units: usize,
    pub latin: bool,
}

// Whether a character of planes 1 to 3 comes next.
#[tactic(auto, unfolding(crate::specs::Step::is_plane))]
fn is_plane(s: &[u8], at: usize) -> bool
    requires { at + 4 ≤ length s.now }
    ensures { result ≡ plane_at s.now at }
{
    (s[at] == 0xF0)
        & within(0x90, 0xBF, s[at + 1])
        & within(0x80, 0xBF, s[at + 2])
        & within(0x80, 0xBF, s[at + 3])
}

// Whether four common characters come next: one test for all.
fn are_common(s: &[u8], at: usize) -> bool
    requires { at + 12 ≤ length s.now }
    ensures { result ≡ (common_at s.now at && common_at s.now (at + 3) && common_at s.now (at + 6) && common_at s.now (at + 9)) }
{
    is_common(s, at) & is_common(s, at + 3) & is_common(s, at + 6) & is_common(s, at + 9)
}

// Whether two characters of planes 1 to 3 come next.
fn are_plane(s: &[u8], at: usize) -> bool
    requires { at + 8 ≤ length s.now }
    ensures { result ≡ (plane_at s.now at && plane_at s.now (at + 4)) }
{
    is_plane(s, at) & is_plane(s, at + 4)
}

// How many units a character of k bytes has.
fn char_units(k: usize) -> usize
    ensures { result ≡ cond (eqb k 4) 2 1 }
{
    1 + usize::from(k == 4)
}

// What comes next, or none where no character does.
pub fn step_at(s: &[u8], at: usize) -> Option<Step>
    requires { at < length s.now }
    ensures { Stepped s.now at result }
{
    let a = s[at];
    if a < 0x80 {
        let few = ascii_at(s, at);
        return Some(Step {
            size: few,
            units: few,
            latin: true,
        });
    }
    let left = s.len() - at;
    if a < 0xF0 {
        if 12 <= left && are_common(s, at) {
            return Some(Step {
                size: 12,
                units: 4,
                latin: false,
            });
        }
    } else if 8 <= left && are_plane(s, at) {
        return Some(Step {
            size: 8,
            units: 4,
            latin: false,
        });
    }
    let c = quick_char(s, at)?;
    Some(Step {
        size: c.size,
        units: char_units(c.size),
        latin: c.value < 256,
    })
}
