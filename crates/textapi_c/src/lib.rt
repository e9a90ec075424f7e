// What C sees of `textapi`, for tests and benchmarks in other languages. The functions and their clauses are those of `textapi`.
// Kept: each function twice: a crate is a library or a static library, not both (the C interface).

#![tactic(auto)]

ghost use Rattle.std.specs.Prelude.{◌≡◌, length};
ghost use Rattle.lower.specs.Lower.{lower};
ghost use Rattle.city.specs.City.{city_hash64};
ghost use Rattle.textapi.specs.Answers.{id_answer, name_answer, name_after};

#[unsafe(no_mangle)]
pub extern "C" fn text_city_hash64(s: &[u8]) -> u64
    ensures { result ≡ city_hash64 s.now }
{
    textapi::text_city_hash64(s)
}

// The lower-case form of a character, by the rules that the id of a name goes by; by the table where they say so, and beyond the last
// character, where it has nothing.
#[unsafe(no_mangle)]
pub extern "C" fn text_lower(c: u32) -> u32
    ensures { result ≡ lower c }
{
    textapi::text_lower(c)
}

// The id of a name; 0 where it is no text.
#[unsafe(no_mangle)]
pub extern "C" fn text_name_id(part: &[u8], wide: bool, number: u32) -> u64
    ensures { result ≡ id_answer wide part.now number }
{
    textapi::text_name_id(part, wide, number)
}

// The rendered name in UTF-8 at the front of the buffer, and its length; where it is no text or has no room, 2^64 - 1 and
// the buffer as it was.
#[unsafe(no_mangle)]
pub extern "C" fn text_put_name(out: &mut [u8], part: &[u8], wide: bool, number: u32) -> u64
    ensures { (result ≡ name_answer (length out.old) wide part.now number)
        × (out.new ≡ name_after out.old wide part.now number) }
{
    textapi::text_put_name(out, part, wide, number)
}
