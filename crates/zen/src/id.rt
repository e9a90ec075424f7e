// The id of the name that the text at a place of a block makes with an instance number.
ghost use Rattle.std.specs.Prelude.{◌≡◌};
ghost use Rattle.ids.specs.Id.{id_of};
ghost use Rattle.batch.specs.Holds.{text_at, name_at, Holds};

use batch::places::Name;
use batch::texts::text_of;

// The id of the name.
pub fn place_id(b: &[u8], n: Name) -> u64
    requires { Holds b.now n.place (text_at b.now n.place) }
    ensures { result ≡ id_of (name_at b.now n.place n.number) }
{
    ids::id::name_id(text_of(b, n.place), n.number)
}
