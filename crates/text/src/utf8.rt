// Scalar values to UTF-8 (RFC 3629).
ghost use Rattle.std.specs.Prelude.{◌≡◌, ◌≤◌, ◌<◌, length};
ghost use Rattle.base.specs.Output.{Wrote};
ghost use Rattle.text.specs.Utf8.{utf8_one};

// A scalar value. Written out where it is called, as `scalar_at` is.
// Kept: a u32 and no `char`, which asks more: no surrogate is one. `char::from_u32` would also answer an Option of what the caller knows to be there.
#[inline(always)]
pub fn put_utf8(out: &mut [u8], c: u32) -> usize
    requires { (c < 0x110000) × (length (utf8_one c) ≤ length out.old) }
    ensures { Wrote out.old (utf8_one c) out.new result }
{
    if c < 0x80 {
        out[0] = c as u8;
        return 1;
    }
    if c < 0x800 {
        out[0] = (192 + c / 64) as u8;
        out[1] = (128 + c % 64) as u8;
        return 2;
    }
    if c < 0x10000 {
        out[0] = (224 + c / 4096) as u8;
        out[1] = (128 + c / 64 % 64) as u8;
        out[2] = (128 + c % 64) as u8;
        return 3;
    }
    out[0] = (240 + c / 262144) as u8;
    out[1] = (128 + c / 4096 % 64) as u8;
    out[2] = (128 + c / 64 % 64) as u8;
    out[3] = (128 + c % 64) as u8;
    4
}
