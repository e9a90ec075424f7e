// Lowering by the table.
ghost use Rattle.std.specs.Prelude.{◌≡◌};
ghost use Rattle.lower.specs.Lower.{lower};

use super::table::table;

// The lower-case form of a character: the second of the pair whose first it is, or itself.
pub fn lower_in(c: u32) -> u32
    ensures { result ≡ lower c }
{
    let pairs = table();
    match pairs.binary_search_by_key(&c, |&(first, _)| first) {
        Ok(at) => pairs[at].1,
        Err(_) => c,
    }
}
