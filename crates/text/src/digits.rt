// Numbers in decimal and in hexadecimal digits.
ghost use Rattle.std.specs.Prelude.{◌≡◌, ◌≤◌, ◌<◌, length};
ghost use Rattle.base.specs.Output.{Wrote};
ghost use Rattle.text.specs.Digits.{decimal, hex_digit, hex};

// How many digits a number has in decimal.
pub fn decimal_len(n: u64) -> usize
    ensures { (result ≡ length (decimal n)) × (result ≤ 20) }
{
    n.checked_ilog10().map_or(1, |k| 1 + k as usize)
}

// A number in decimal.
// Kept: digits by hand, here and in `put_hex`: `write!` answers a Result, and this can't fail; what is written is a clause on the bytes.
pub fn put_decimal(out: &mut [u8], n: u64) -> usize
    requires { length (decimal n) ≤ length out.old }
    ensures { Wrote out.old (decimal n) out.new result }
{
    if n < 10 {
        out[0] = (48 + n) as u8;
        return 1;
    }
    if n < 100 {
        out[0] = (48 + n / 10) as u8;
        out[1] = (48 + n % 10) as u8;
        return 2;
    }
    let at = put_decimal(out, n / 100);
    out[at] = (48 + n / 10 % 10) as u8;
    out[at + 1] = (48 + n % 10) as u8;
    at + 2
}

// A digit, in eight bits, so that the compiler can make many at once.
fn hex_digit(d: u8) -> u8
    requires { d < 16 }
    ensures { result ≡ hex_digit d }
{
    if d < 10 {
        return 48 + d;
    }
    87 + d
}

// The last k hexadecimal digits of a number, from the last one on.
pub fn put_hex(out: &mut [u8], n: u64, k: usize) -> usize
    requires { k ≤ length out.old }
    ensures { Wrote out.old (hex k n) out.new result }
{
    let mut rest = n;
    for i in (0..k).rev() {
        out[i] = hex_digit((rest % 16) as u8);
        rest = rest / 16;
    }
    k
}
