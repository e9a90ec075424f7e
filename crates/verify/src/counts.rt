// How many paths of a script block are known, and how many of their hashes match.
ghost use Rattle.std.specs.Prelude.{◌≡◌, ℕ, ◌^◌, ◌≤◌, ◌<◌, length};
ghost use Rattle.base.specs.Reading.{gives, run};
ghost use Rattle.scriptblock.specs.Script.{Objects, script};
ghost use Rattle.objects.specs.Numbers.{path_no};
ghost use Rattle.objects.specs.Work.{LinkedOf};
ghost use Rattle.hashes.specs.Hashed.{hashed_as};
ghost use Rattle.verify.specs.Tallies.{tallied, tally_of};

use base::index::index_value;
use batch::places::Name;
use hashes::chain::{DEPTH, NO_NAME};
use hashes::path::{path_hash, path_hash_by_scan};
use scan::script::Script;
use scriptblock::script::ScriptBlock;

// Paths resolved, and those whose hash matches.
#[derive(Clone, Copy)]
pub struct Tally {
    pub resolved: u32,
    pub matches: u32,
}

impl Tally {
    // With one object more, by its global index and its path's hash, if its path is known: the low 62 bits are compared.
    fn with_object(self, global: u64, path: Option<u64>) -> Tally
        requires { (self.resolved < 4294967295) × (self.matches < 4294967295) }
        ensures { result ≡ tallied self global path }
    {
        let Some(hash) = path else {
            return self;
        };
        let low = index_value(hash);
        let wanted = index_value(global);
        Tally {
            resolved: self.resolved + 1,
            matches: self.matches + u32::from(low == wanted),
        }
    }
}

// Kept: that a limit is DEPTH or less is a `requires`: of a `Limits` lookups would be said that nothing here reads.
// All objects of a block, by the hash of each one's path, of at most `limit` objects, whose chain is made in the lent room.
fn count<F: Fn(usize, &mut [Name]) -> Option<u64>>(s: &ScriptBlock, limit: usize, hash: F) -> Tally
    requires block { (length s.now.bytes.now < 2 ^ 32) × (limit ≤ 65) }
    requires callable { (i : ℕ) (room : _) → i < s.now.layout.count → length room.now ≡ limit → F.pre hash i room }
    ensures { (o : Objects) → run script 0 s.now.bytes.now ≡ gives o
        → ((i : ℕ) (room room' : _) (path : _) → i < s.now.layout.count → length room.now ≡ limit → F.post hash i room path room'
        → path ≡ hashed_as (path_no limit o i))
        → result ≡ tally_of limit o }
{
    let mut chain = [NO_NAME; DEPTH];
    let mut t = Tally {
        resolved: 0,
        matches: 0,
    };
    for i in 0..s.layout.count {
        let e = s.entry(i);
        t = t.with_object(e.global, hash(i, &mut chain[..limit]));
    }
    t
}

// All objects of a block, by the links in the work buffer w.
pub fn count_linked(s: &ScriptBlock, w: &[u8], limit: usize) -> Tally
    requires { LinkedOf s.now.bytes.now w.now × (limit ≤ 65) × (length s.now.bytes.now < 2 ^ 32) }
    ensures { (o : Objects) → run script 0 s.now.bytes.now ≡ gives o → result ≡ tally_of limit o }
{
    count(s, limit, |i, room| path_hash(s.bytes, w, i, room))
}

// All objects of a block, each outer looked for among them.
pub fn count_scanned(s: &Script) -> Tally
    requires { (s.now.limit ≤ 65) × (length s.now.block.bytes.now < 2 ^ 32) }
    ensures { (o : Objects) → run script 0 s.now.block.bytes.now ≡ gives o → result ≡ tally_of s.now.limit o }
{
    count(&s.block, s.limit, |i, room| path_hash_by_scan(s, i, room))
}
