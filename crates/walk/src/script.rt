// The script objects in the front of the work buffer.
ghost use Rattle.std.specs.Prelude.{◌≡◌, ◌*◌, ◌^◌, ◌≤◌, ◌<◌, length, Ok, Err};
ghost use Rattle.base.specs.NumberLaws.{Bytes};
ghost use Rattle.base.specs.Reading.{run};
ghost use Rattle.base.specs.Refusal.{number};
ghost use Rattle.base.specs.declared.refusal.Refusal.{Refusal};
ghost use Rattle.scriptblock.specs.Script.{script};
ghost use Rattle.scriptblock.specs.ScriptAnswers.{opened, script_answer};
ghost use Rattle.scriptblock.specs.declared.script.ScriptBlock.{ScriptBlock};
ghost use Rattle.walk.specs.Found.{Linked};

use base::refusal::Refusal;
use batch::notes::NotedNames;
use objects::enter::enter;
use objects::link::link;
use scriptblock::script::{Layout, ScriptBlock};

// The script objects that stand, linked, in front of the work buffer: their block, how many they are, and how many of them a path may have.
#[derive(Clone, Copy)]
pub struct ScriptObjects<'a> {
    pub block: &'a [u8],
    pub count: usize,
    pub limit: usize,
    pub ghost fits: { Bytes block.now },
}

// Enters the objects of a script block that was opened, whose names are noted, and links each to its outer, unless the block fails one of the questions
// 10 to 13.
pub fn enter_script<'a>(
    names: &NotedNames<'a>,
    l: Layout,
    w: &mut [u8],
) -> Result<ScriptBlock<'a>, Refusal>
    requires { (opened names.now.block.now ≡ Ok l) × (names.now.names ≡ l.names) × (64 * l.count ≤ length w.old) × (length names.now.block.now < 2 ^ 32) }
    ensures refused { (r : Refusal) → result ≡ Err r → script_answer (run script 0 names.now.block.now) ≡ Err (number r) }
    ensures entered { (s : ScriptBlock) → result ≡ Ok s → (s.bytes ≡ names.now.block) × (s.layout ≡ l) × Linked names.now.block.now l.count w.new
        × (length w.new ≡ length w.old) }
{
    let size = 56 * l.count;
    enter(names, l, &mut w[..size])?;
    if l.entries + 32 * l.count < names.block.len() {
        return Err(Refusal::EntriesLeft);
    }
    let s = ScriptBlock {
        bytes: names.block,
        layout: l,
    };
    link(&s, &mut w[..size]);
    Ok(s)
}
