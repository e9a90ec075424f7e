// A script block: its refusal, its objects.
ghost use Rattle.std.specs.Prelude.{◌≡◌, get_or};
ghost use Rattle.zenapi.specs.Answers.{script_in, none, refusal, object_fields, object_answer};

use super::{ABSENT, refused};
use scriptblock::script::{Entry, ScriptBlock, check_script};

// The refusal, or 0.
#[unsafe(no_mangle)]
pub extern "C" fn zen_check_script(b: &[u8]) -> u64
    ensures { result ≡ refusal (script_in b.now) }
{
    refused(check_script(b))
}

#[tactic(auto, using(crate::proofs::Cells::past), unfolding(crate::specs::Answers::object_fields))]
fn object_field(e: Entry, field: u32) -> u64
    ensures { result ≡ get_or (object_fields e) field none }
{
    match field {
        0 => e.index as u64,
        1 => u64::from(e.number),
        2 => e.global,
        3 => e.outer,
        _ => ABSENT,
    }
}

// Object i: name index, number, global index, outer.
#[unsafe(no_mangle)]
pub extern "C" fn zen_object(b: &[u8], i: usize, field: u32) -> u64
    ensures { result ≡ object_answer (script_in b.now) i field }
{
    let Ok(s) = ScriptBlock::open(b) else {
        return ABSENT;
    };
    if s.layout.count <= i {
        return ABSENT;
    }
    object_field(s.entry(i), field)
}
