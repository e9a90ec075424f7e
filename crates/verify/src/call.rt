// The call that counts hashes and compares ids.
ghost use Rattle.std.specs.Prelude.{◌≡◌, ◌*◌, ◌≤◌, length, Ok};
ghost use Rattle.scriptblock.specs.ScriptAnswers.{opened};
ghost use Rattle.meaning.specs.Verify.{verified};
ghost use Rattle.walk.specs.Answers.{answer_number};
ghost use Rattle.walk.specs.OpenSteps.{Packages};
ghost use Rattle.walk.specs.Found.{Linked};
ghost use Rattle.verify.specs.Steps.{Tallied, Passed, Answered};

use super::counts::{Tally, count_linked, count_scanned};
use super::output::put_output;
use base::refusal::{Refusal, Refused};
use batch::notes::{NotedNames, Notes};
use packages::block::PackageNotes;
use scan::check::check_packages;
use scan::repeats::repeat_block;
use scan::script::Script;
use scriptblock::script::{Layout, ScriptBlock, open_script};
use walk::corpus::Corpus;
use walk::script::{ScriptObjects, enter_script};
use walk::walk::{Entering, scan_packages};

// "without limits of its own uses 64 lookups and 65 objects"; no class is looked up here.
const OBJECTS: usize = 65;

// 26 and the output of a corpus with n script objects.
fn finish(c: &Corpus, n: usize, t: Tally, out: &mut [u8]) -> Result<usize, Refused>
    requires { Passed c.now.bytes.now c.now.frame n t }
    ensures { Answered c.now.bytes.now out.old out.new (answer_number result) }
{
    if out.len() < 25 + c.frame.count {
        return Err(Refusal::ReportRoom.at(0));
    }
    Ok(put_output(out, &c.packages(), n, t))
}

// Kept: corpus and script are two parameters, and that one is the other's is a `requires`, as in report: `compare(&Opened { c, s: &s }, t, out)`.
// Kept: these functions take the steps of report's in the same order: one for both would be handed what to do with the linked objects, where 25 is asked and at
// the end, and say in its contract what three closures do to two buffers.

// 24 by comparing each class with all before it, and the rest.
fn compare(c: &Corpus, s: &Script, t: Tally, out: &mut [u8]) -> Result<usize, Refused>
    requires { Packages c.now.bytes.now c.now.frame × (s.now.block.bytes.now ≡ c.now.script.now) × (s.now.limit ≡ 65) × Tallied c.now.script.now t }
    ensures { Answered c.now.bytes.now out.old out.new (answer_number result) }
{
    if let Some(block) = repeat_block(&c.packages(), s) {
        return Err(Refusal::RepeatedClass.at(block));
    }
    finish(c, s.block.layout.count, t, out)
}

// Where the work buffer has no room for the script objects: by looking at the corpus only.
fn without_table(c: &Corpus, out: &mut [u8]) -> Result<usize, Refused>
    ensures { Answered c.now.bytes.now out.old out.new (answer_number result) }
{
    let block = ScriptBlock::open(c.script).map_err(|why| why.at(1))?;
    check_packages(&c.packages())?;
    let mut notes = Notes::new();
    let names = block.names(&mut notes);
    let s = Script {
        block,
        names,
        limit: OBJECTS,
    };
    let t = count_scanned(&s);
    compare(c, &s, t, out)
}

// The packages, 24 and the rest; w has the linked script objects in front, and t counts them.
fn with_objects(
    c: &Corpus,
    s: &Script,
    w: &mut [u8],
    t: Tally,
    out: &mut [u8],
) -> Result<usize, Refused>
    requires { (s.now.block.bytes.now ≡ c.now.script.now) × (s.now.limit ≡ 65) × Linked c.now.script.now s.now.block.layout.count w.old
        × Tallied c.now.script.now t }
    ensures { Answered c.now.bytes.now out.old out.new (answer_number result) }
{
    let mut notes = PackageNotes::new();
    let objects = ScriptObjects {
        block: c.script,
        count: s.block.layout.count,
        limit: OBJECTS,
    };
    let k = scan_packages(&c.packages(), &objects, w, &mut notes)?;
    match k.state {
        Entering::Repeated(block) => Err(Refusal::RepeatedClass.at(block)),
        Entering::Open => finish(c, s.block.layout.count, t, out),
        Entering::Full => compare(c, s, t, out),
    }
}

// The script block's entries and the rest, where the work buffer has room for the script objects.
fn with_table(c: &Corpus, layout: Layout, w: &mut [u8], out: &mut [u8]) -> Result<usize, Refused>
    requires { (opened c.now.script.now ≡ Ok layout) × (64 * layout.count ≤ length w.old) }
    ensures { Answered c.now.bytes.now out.old out.new (answer_number result) }
{
    let mut notes = Notes::new();
    let names = NotedNames::of(c.script, layout.names, &mut notes);
    let block = enter_script(&names, layout, w).map_err(|why| why.at(1))?;
    let size = 56 * layout.count;
    let t = count_linked(&block, &w[..size], OBJECTS);
    let s = Script {
        block,
        names,
        limit: OBJECTS,
    };
    with_objects(c, &s, w, t, out)
}

// How much is written of the output of a corpus, or what it is refused for.
fn answer(bytes: &[u8], w: &mut [u8], out: &mut [u8]) -> Result<usize, Refused>
    ensures { Answered bytes.now out.old out.new (answer_number result) }
{
    let c = Corpus::framed(bytes)?;
    let layout = open_script(c.script).map_err(|why| why.at(1))?;
    if w.len() / 64 < layout.count {
        return without_table(&c, out);
    }
    with_table(&c, layout, w, out)
}

// What a corpus and an output buffer give, whatever the work buffer is.
pub fn class_verify(c: &[u8], w: &mut [u8], out: &mut [u8]) -> u64
    ensures number { result ≡ (verified c.now out.old).number }
    ensures output { out.new ≡ (verified c.now out.old).output }
{
    match answer(c, w, out) {
        Ok(n) => n as u64,
        Err(r) => r.number(),
    }
}
