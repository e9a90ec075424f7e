// The hash of an object's path: by the links in the work buffer, or by looking in the block. The chain of its objects is made in lent room.
ghost use Rattle.std.specs.Prelude.{◌≡◌, ◌*◌, ◌≤◌, ◌<◌, length};
ghost use Rattle.base.specs.Reading.{gives, run};
ghost use Rattle.scriptblock.specs.Script.{Objects, script};
ghost use Rattle.objects.specs.Numbers.{path_no};
ghost use Rattle.objects.specs.Work.{ObjectsIn, LinkedOf};
ghost use Rattle.hashes.specs.Hashed.{hashed_as};

use super::chain::{chain_by_scan, chain_in};
use super::units::PathUnits;
use batch::places::Name;
use scan::script::Script;

// The hash of the path of object i, of at most as many objects as there is room for, if it is known. What the room holds before doesn't count.
pub fn path_hash(s: &[u8], w: &[u8], i: usize, room: &mut [Name]) -> Option<u64>
    requires { LinkedOf s.now w.now × (56 * i < length w.now) × (length room.old ≤ 65) }
    ensures { (o : Objects) → ObjectsIn s.now o w.now → result ≡ hashed_as (path_no (length room.old) o i) }
{
    let chain = chain_in(w, i, room)?;
    Some(PathUnits::of(s, chain).hash())
}

// The same with no work buffer, by looking in the block.
pub fn path_hash_by_scan(s: &Script, i: usize, room: &mut [Name]) -> Option<u64>
    requires { (i < s.now.block.layout.count) × (length room.old ≤ 65) }
    ensures { (o : Objects) → run script 0 s.now.block.bytes.now ≡ gives o → result ≡ hashed_as (path_no (length room.old) o i) }
{
    let chain = chain_by_scan(s, i, room)?;
    let names = &s.block.bytes[s.names.names.strings..];
    Some(PathUnits::of(names, chain).hash())
}
