// An accepted script block with its names noted, and the limit of its paths.
ghost use Rattle.std.specs.Prelude.{◌≡◌};

use batch::notes::NotedNames;
use scriptblock::script::ScriptBlock;

// The block, its names, and how many objects a path may have.
#[derive(Clone, Copy)]
pub struct Script<'a> {
    pub block: ScriptBlock<'a>,
    pub names: NotedNames<'a>,
    pub limit: usize,
    pub ghost own: { (names.block.now ≡ block.bytes.now) × (names.names ≡ block.layout.names) },
}
