// A corpus that is framed (questions 1 and 2): what every call that lends one begins with.
ghost use Rattle.std.specs.Prelude.{◌≡◌, ◌+◌, MatchResult, Err};
ghost use Rattle.base.specs.Refusal.{number};
ghost use Rattle.meaning.specs.Frame.{framed};
ghost use Rattle.packages.specs.Framing.{framed_as};
ghost use Rattle.walk.specs.OpenSteps.{Begun};

use base::refusal::Refused;
use packages::frame::{Frame, read_frame};
use packages::site::Packages;

// Its bytes, where its parts are, and its script block.
#[derive(Clone, Copy)]
pub struct Corpus<'a> {
    pub bytes: &'a [u8],
    pub frame: Frame,
    pub script: &'a [u8],
    pub ghost begun: { Begun bytes.now frame script.now },
}

impl<'a> Corpus<'a> {
    // A corpus, unless it fails question 1 or 2.
    pub fn framed(bytes: &'a [u8]) -> Result<Corpus<'a>, Refused>
        ensures { MatchResult result (λ c. c.bytes ≡ bytes.entry) (λ r. (framed_as (framed bytes.now) ≡ Err (number r.why)) × (r.block ≡ 0)) }
    {
        let frame = read_frame(bytes).map_err(|why| why.at(0))?;
        let end = frame.end;
        let script = &bytes[9..end];
        Ok(Corpus {
            bytes,
            frame,
            script,
        })
    }

    // Its packages: the first stands behind their count.
    pub fn packages(&self) -> Packages<'a>
        ensures { (result.corpus ≡ self.now.bytes) × (result.at ≡ self.now.frame.«end» + 4) × (result.count ≡ self.now.frame.count) }
    {
        Packages {
            corpus: self.bytes,
            at: self.frame.end + 4,
            count: self.frame.count,
        }
    }
}
