// Imported names of a package header (zen.rs).
ghost use Rattle.std.specs.Prelude.{◌≡◌, ◌≤◌, length};
ghost use Rattle.base.specs.Reading.{walk};
ghost use Rattle.base.specs.Refusal.{numbered};
ghost use Rattle.zen.specs.Zen.{imports};
ghost use Rattle.zen.specs.Answers.{imported};

use base::refusal::Refusal;
use batch::names::{Names, read_batch};

// The imported names: questions 3 to 7, 3, 22, 10.
pub fn check_imports(s: &[u8], at: usize, index: usize, count: usize) -> Result<Names, Refusal>
    requires { at ≤ length s.now }
    ensures { numbered result ≡ imported (walk (imports index count) s.now at) }
{
    let n = read_batch(s, at)?;
    let left = s.len() - n.end;
    if left < 4 * n.count {
        return Err(Refusal::Cut);
    }
    if 4 * n.count < left {
        return Err(Refusal::NamesLeft);
    }
    if count <= index {
        return Err(Refusal::NameIndex);
    }
    Ok(n)
}
