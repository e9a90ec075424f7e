// What stands before the summary of a package header (zen.rs): the versioning flag and the header size, through one cursor.
ghost use Rattle.std.specs.Prelude.{◌≡◌};
ghost use Rattle.base.specs.Reading.{walk};
ghost use Rattle.base.specs.Refusal.{numbered};
ghost use Rattle.zen.specs.Zen.{lead};
ghost use Rattle.zen.specs.Answers.{led};

use base::refusal::Refusal;
use batch::cursor::Cursor;

// The header size: questions 3, 14, 3, 15.
pub fn read_lead(b: &[u8]) -> Result<usize, Refusal>
    ensures { numbered result ≡ led (walk lead b.now 0) }
{
    let mut c = Cursor::new(b);
    let flag = c.read_u32().ok_or(Refusal::Cut)?;
    if flag != 0 {
        return Err(Refusal::Flag);
    }
    let size = c.read_u32().ok_or(Refusal::Cut)? as usize;
    if b.len() < size {
        return Err(Refusal::HeaderSize);
    }
    Ok(size)
}
