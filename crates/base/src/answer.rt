// The number that a call returns, packed and unpacked by shifts and masks. Unpacked it is for callers in Rattle, of which this repository has none: C has
// include/classreport.h for it, and Rust host/answer.
ghost use Rattle.std.specs.Prelude.{◌≡◌};
ghost use Rattle.base.specs.Answer.{refusal, is_refusal, question_of, block_of};
ghost use Rattle.base.specs.Refusal.{number};

use super::refusal::Refused;

// The number of a refusal: bit 63, the question in bits 32 to 39, the block in bits 0 to 31.
// Kept: numbers, since they are packed for C; those of a Refused come by `number`.
pub fn refuse(question: u8, block: u32) -> u64
    ensures { result ≡ refusal question block }
{
    0x8000_0000_0000_0000 | u64::from(question) << 32 | u64::from(block)
}

impl Refused {
    // The number of the refusal.
    pub fn number(self) -> u64
        ensures { result ≡ refusal (number self.why) self.block }
    {
        refuse(self.why.number(), self.block)
    }
}

// Whether a number is a refusal: bit 63.
pub fn is_refusal(n: u64) -> bool
    ensures { result ≡ is_refusal n }
{
    n >> 63 == 1
}

// The question in a number: bits 32 to 39.
pub fn question_of(n: u64) -> u8
    ensures { result ≡ question_of n }
{
    ((n >> 32) & 0xff) as u8
}

// The block in a number: bits 0 to 31.
pub fn block_of(n: u64) -> u32
    ensures { result ≡ block_of n }
{
    (n & 0xffff_ffff) as u32
}
