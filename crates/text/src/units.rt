// A part of a block as units: the bytes of one-byte text, the 16-bit units of wide text; and a unit written.
ghost use Rattle.std.specs.Prelude.{◌≡◌, ◌+◌, ◌*◌, ◌/◌, ◌%◌, ◌≤◌, ◌<◌, length, get_or};
ghost use Rattle.std.proofs.Math.ListN.{set};
ghost use Rattle.text.specs.Units.{units_in};

use super::text::Part;
use base::number;

impl<'a> Part<'a> {
    // How many units it has.
    pub fn count(self) -> usize
        ensures { result ≡ length (units_in self.entry) }
    {
        if self.wide {
            return self.bytes.len() / 2;
        }
        self.bytes.len()
    }

    // Unit i.
    pub fn unit(self, i: usize) -> u32
        requires { i < length (units_in self) }
        ensures { (result ≡ get_or (units_in self.entry) i 0) × (result < 65536) }
    {
        if self.wide {
            return u32::from(number::le16(self.bytes, 2 * i));
        }
        u32::from(self.bytes[i])
    }
}

// Writes a unit as unit i of a buffer, in UTF-16LE: its low byte and its high one.
pub fn put_unit(out: &mut [u8], i: usize, u: u16)
    requires { 2 * i + 2 ≤ length out.old }
    ensures { out.new ≡ set (set out.old (2 * i) (u % 256)) (2 * i + 1) (u / 256) }
{
    let [low, high] = u.to_le_bytes();
    out[2 * i] = low;
    out[2 * i + 1] = high;
}
