// The call that writes a report.
ghost use Rattle.std.specs.Prelude.{◌≡◌, ℕ, ◌*◌, ◌≤◌, ◌<◌, length, Ok};
ghost use Rattle.base.specs.Answer.{refusal};
ghost use Rattle.base.specs.Reading.{gives, run};
ghost use Rattle.base.specs.Refusal.{number};
ghost use Rattle.scriptblock.specs.Script.{Objects, script};
ghost use Rattle.scriptblock.specs.ScriptAnswers.{opened};
ghost use Rattle.scriptblock.specs.declared.script.Layout.{Layout};
ghost use Rattle.meaning.specs.Call.{outcome};
ghost use Rattle.walk.specs.Answers.{answer_number};
ghost use Rattle.walk.specs.OpenSteps.{Packages};
ghost use Rattle.walk.specs.Found.{Linked};
ghost use Rattle.resolve.specs.Rows.{limits_of};
ghost use Rattle.report.specs.CallSteps.{work_needed, Gathered, Refused as Refuses, Answered};

use base::refusal::{Refusal, Refused};
use batch::notes::{NotedNames, Notes};
use packages::block::PackageNotes;
use pool::rows::pool_texts;
use resolve::limits::Limits;
use resolve::links::link_classes;
use resolve::rows::resolve_all;
use scan::check::check_packages;
use scan::repeats::repeat_block;
use scan::script::Script;
use scriptblock::script::{Layout, ScriptBlock, open_script};
use sections::section::put_report;
use sections::source::Source;
use walk::corpus::Corpus;
use walk::script::{ScriptObjects, enter_script};
use walk::walk::{Census, Entering, scan_packages};

// The longest report: 4 bytes of length, and as many bytes as they can say.
const MOST: usize = 4294967299;

// Kept: work buffer and report buffer are two parameters, as C has them; that the script is the corpus's is a `requires`: a struct of both would be made where
// one of them is there already, as `Opened { c: &c, s: &s }`.

// What is refused where the work buffer has no room for all: 24 if a class's key stands twice, else 25.
fn refuse_short(c: &Corpus, s: &Script) -> Refused
    requires { Packages c.now.bytes.now c.now.frame × (s.now.block.bytes.now ≡ c.now.script.now) }
    ensures { (o : Objects) (lookups work room : ℕ) → run script 0 c.now.script.now ≡ gives o
        → work < work_needed s.now.limit o c.now.bytes.now c.now.frame
        → Refuses (limits_of lookups s.now.limit) c.now.bytes.now work room (refusal (number result.why) result.block) }
{
    if let Some(block) = repeat_block(&c.packages(), s) {
        return Refusal::RepeatedClass.at(block);
    }
    Refusal::WorkRoom.at(0)
}

// What is refused where the work buffer has no room for the script objects, by looking at the corpus only.
fn without_table(c: &Corpus, limit: usize) -> Result<usize, Refused>
    ensures { (l : Layout) (lookups work room : ℕ) → opened c.now.script.now ≡ Ok l → work < 64 * l.count
        → Refuses (limits_of lookups limit) c.now.bytes.now work room (answer_number result) }
{
    let block = ScriptBlock::open(c.script).map_err(|why| why.at(1))?;
    check_packages(&c.packages())?;
    let mut notes = Notes::new();
    let names = block.names(&mut notes);
    Err(refuse_short(
        c,
        &Script {
            block,
            names,
            limit,
        },
    ))
}

// 26 and the report, once the work buffer holds n script objects and all that the packages hold.
fn finish(
    c: &Corpus,
    n: usize,
    t: Census,
    w: &mut [u8],
    report: &mut [u8],
    m: Limits,
    notes: &mut PackageNotes,
) -> Result<usize, Refused>
    requires begun { Packages c.now.bytes.now c.now.frame × Gathered m.objects c.now.bytes.now c.now.frame c.now.script.now n t w.old }
    ensures { Answered (limits_of m.lookups m.objects) c.now.bytes.now (length w.old) report.old report.new (answer_number result) }
{
    link_classes(w, n, t.classes);
    let size = t.size + resolve_all(w, n, t.rows, m);
    if MOST < size || report.len() < size {
        return Err(Refusal::ReportRoom.at(0));
    }
    pool_texts(c.bytes, c.script, w, n, t.classes, t.rows, m);
    let src = Source {
        packages: c.packages(),
        script: c.script,
        work: &*w,
        objects: n,
        rows: t.rows,
        limit: m.objects,
    };
    Ok(put_report(report, &src, notes))
}

// The packages, 24, 25 and the rest; w has the linked script objects in front.
fn with_objects(
    c: &Corpus,
    s: &Script,
    w: &mut [u8],
    report: &mut [u8],
    m: Limits,
) -> Result<usize, Refused>
    requires { (s.now.block.bytes.now ≡ c.now.script.now) × (s.now.limit ≡ m.objects)
        × Linked c.now.script.now s.now.block.layout.count w.old }
    ensures { Answered (limits_of m.lookups m.objects) c.now.bytes.now (length w.old) report.old report.new (answer_number result) }
{
    let mut notes = PackageNotes::new();
    let objects = ScriptObjects {
        block: c.script,
        count: s.block.layout.count,
        limit: m.objects,
    };
    let t = scan_packages(&c.packages(), &objects, w, &mut notes)?;
    match t.state {
        Entering::Repeated(block) => Err(Refusal::RepeatedClass.at(block)),
        Entering::Open => finish(c, objects.count, t, w, report, m, &mut notes),
        Entering::Full => Err(refuse_short(c, s)),
    }
}

// The script block's entries and the rest, where the work buffer has room for the script objects.
fn with_table(
    c: &Corpus,
    layout: Layout,
    w: &mut [u8],
    report: &mut [u8],
    m: Limits,
) -> Result<usize, Refused>
    requires { (opened c.now.script.now ≡ Ok layout) × (64 * layout.count ≤ length w.old) }
    ensures { Answered (limits_of m.lookups m.objects) c.now.bytes.now (length w.old) report.old report.new (answer_number result) }
{
    let mut notes = Notes::new();
    let names = NotedNames::of(c.script, layout.names, &mut notes);
    let block = enter_script(&names, layout, w).map_err(|why| why.at(1))?;
    let s = Script {
        block,
        names,
        limit: m.objects,
    };
    with_objects(c, &s, w, report, m)
}

// How much is written of the report of a corpus, or what it is refused for.
fn answer(bytes: &[u8], w: &mut [u8], report: &mut [u8], m: Limits) -> Result<usize, Refused>
    ensures { Answered (limits_of m.lookups m.objects) bytes.now (length w.old) report.old report.new (answer_number result) }
{
    let c = Corpus::framed(bytes)?;
    let layout = open_script(c.script).map_err(|why| why.at(1))?;
    if w.len() / 64 < layout.count {
        return without_table(&c, m.objects);
    }
    with_table(&c, layout, w, report, m)
}

// Kept: a match, which verify has too: `returned(answer(c, w, report, m))` would be one name more for its two arms.
// What a corpus, a work buffer and a report buffer give within limits.
pub fn class_report(c: &[u8], w: &mut [u8], report: &mut [u8], m: Limits) -> u64
    ensures number { result ≡ (outcome (limits_of m.lookups m.objects) c.now w.old report.old).number }
    ensures report { report.new ≡ (outcome (limits_of m.lookups m.objects) c.now w.old report.old).report }
{
    match answer(c, w, report, m) {
        Ok(n) => n as u64,
        Err(r) => r.number(),
    }
}
