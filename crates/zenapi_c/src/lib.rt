// What C sees of `zenapi`, for tests and benchmarks in other languages. The functions and their clauses are those of `zenapi`.
// Kept: each function twice: a crate is a library or a static library, not both (the C interface).

#![tactic(auto)]

ghost use Rattle.std.specs.Prelude.{◌≡◌, get_or, length};
ghost use Rattle.zen.specs.Answers.{hashes_of};
ghost use Rattle.zenapi.specs.Answers.{package_in, id_answer, ends_answer, none, refusal, counts, export_answer, script_in, object_answer};
ghost use Rattle.zenapi.specs.Texts.{text_answer, text_after};

// The id of imported name i.
#[unsafe(no_mangle)]
pub extern "C" fn zen_imported_id(b: &[u8], i: usize) -> u64
    ensures { result ≡ id_answer (package_in b.now) i }
{
    zenapi::names::zen_imported_id(b, i)
}

// Where the bases of a package's exports end, added up.
#[unsafe(no_mangle)]
pub extern "C" fn zen_names_ends(b: &[u8]) -> u64
    ensures { result ≡ ends_answer b.now (package_in b.now) }
{
    zenapi::names::zen_names_ends(b)
}

// The refusal, or 0.
#[unsafe(no_mangle)]
pub extern "C" fn zen_check_package(b: &[u8]) -> u64
    ensures { result ≡ refusal (package_in b.now) }
{
    zenapi::package::zen_check_package(b)
}

// How many names (0), exports (1), public hashes (2) and imported names (3) there are.
#[unsafe(no_mangle)]
pub extern "C" fn zen_package_count(b: &[u8], what: u32) -> u64
    ensures { result ≡ get_or (counts (package_in b.now)) what none }
{
    zenapi::package::zen_package_count(b, what)
}

// Public hash i.
#[unsafe(no_mangle)]
pub extern "C" fn zen_hash(b: &[u8], i: usize) -> u64
    ensures { result ≡ get_or (hashes_of (package_in b.now)) i none }
{
    zenapi::package::zen_hash(b, i)
}

// Export i: name index, number, outer, class, super, public hash.
#[unsafe(no_mangle)]
pub extern "C" fn zen_export(b: &[u8], i: usize, field: u32) -> u64
    ensures { result ≡ export_answer (package_in b.now) i field }
{
    zenapi::package::zen_export(b, i, field)
}

// The refusal, or 0.
#[unsafe(no_mangle)]
pub extern "C" fn zen_check_script(b: &[u8]) -> u64
    ensures { result ≡ refusal (script_in b.now) }
{
    zenapi::script::zen_check_script(b)
}

// Object i: name index, number, global index, outer.
#[unsafe(no_mangle)]
pub extern "C" fn zen_object(b: &[u8], i: usize, field: u32) -> u64
    ensures { result ≡ object_answer (script_in b.now) i field }
{
    zenapi::script::zen_object(b, i, field)
}

// Text i at the front of the buffer, and its length; where it is not there or has no room, the buffer as it was.
#[unsafe(no_mangle)]
pub extern "C" fn zen_put_name(out: &mut [u8], b: &[u8], which: u32, i: usize) -> u64
    ensures { (result ≡ text_answer (length out.old) (package_in b.now) which i)
        × (out.new ≡ text_after out.old (package_in b.now) which i) }
{
    zenapi::texts::zen_put_name(out, b, which, i)
}
