// One flag for each package: does the id of its name equal its id in the corpus?
ghost use Rattle.std.specs.Prelude.{map, ◌≡◌, ◌≤◌, length};
ghost use Rattle.ids.specs.Id.{id_of};
ghost use Rattle.base.specs.Output.{Wrote};
ghost use Rattle.zen.specs.Zen.{package_name};
ghost use Rattle.meaning.specs.Verify.{package_flag};
ghost use Rattle.packages.specs.Package.{read_in};
ghost use Rattle.packages.specs.Walk.{package_at, packages_at, AllRead};
ghost use Rattle.scan.specs.Repeats.{ReadAt};

use batch::places::name_start;
use batch::reader::u30_le;
use packages::block::Block;
use packages::frame::{block_at, id_at, next_at};
use packages::site::Packages;
use zen::id::place_id;

// The id of an accepted package's rendered name, which is found by passing over the names before it: it is the only name that is asked for.
fn home_id(b: &Block) -> u64
    ensures { result ≡ id_of (package_name (read_in b.now.bytes.now)) }
{
    let names = b.parts.names;
    let start = name_start(b.bytes, names.headers, names.strings, u30_le(b.bytes, 8));
    place_id(b.bytes, b.home_from(start))
}

// The flag of the package at a place: all 64 bits are compared.
fn flag_at(c: &[u8], at: usize) -> u8
    requires { ReadAt c.now at }
    ensures { result ≡ package_flag (package_at c.now at) }
{
    u8::from(home_id(&Block::of(block_at(c, at))) == id_at(c, at))
}

// The flags of packages, in corpus order.
pub fn put_flags(out: &mut [u8], p: &Packages) -> usize
    requires { AllRead p.now.corpus.now p.now.at p.now.count × (p.now.count ≤ length out.old) }
    ensures { Wrote out.old (map package_flag (packages_at p.now.corpus.now p.now.at p.now.count)) out.new result }
{
    let mut at = p.at;
    for i in 0..p.count {
        out[i] = flag_at(p.corpus, at);
        at = next_at(p.corpus, at);
    }
    p.count
}
