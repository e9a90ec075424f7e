// A package block: its refusal, its counts, its exports, its public hashes.
ghost use Rattle.std.specs.Prelude.{◌≡◌, get_or};
ghost use Rattle.zen.specs.Answers.{hashes_of};
ghost use Rattle.zenapi.specs.Answers.{package_in, none, refusal, counts, export_fields, export_answer};

use super::{ABSENT, refused};
use zen::access::{Package, export_count, hash_count};
use zen::tables::Export;
use zen::zen::check_package;

// The refusal, or 0.
#[unsafe(no_mangle)]
pub extern "C" fn zen_check_package(b: &[u8]) -> u64
    ensures { result ≡ refusal (package_in b.now) }
{
    refused(check_package(b))
}

// How many names (0), exports (1), public hashes (2) and imported names (3) there are.
#[unsafe(no_mangle)]
pub extern "C" fn zen_package_count(b: &[u8], what: u32) -> u64
    ensures { result ≡ get_or (counts (package_in b.now)) what none }
{
    let Ok(l) = check_package(b) else {
        return ABSENT;
    };
    match what {
        0 => l.names.count as u64,
        1 => export_count(l) as u64,
        2 => hash_count(l) as u64,
        3 => l.imported.count as u64,
        _ => ABSENT,
    }
}

// Public hash i.
#[unsafe(no_mangle)]
pub extern "C" fn zen_hash(b: &[u8], i: usize) -> u64
    ensures { result ≡ get_or (hashes_of (package_in b.now)) i none }
{
    let Ok(p) = Package::open(b) else {
        return ABSENT;
    };
    if hash_count(p.layout) <= i {
        return ABSENT;
    }
    p.hash_at(i)
}

#[tactic(auto, unfolding(crate::specs::Answers::export_fields))]
fn export_field(e: Export, field: u32) -> u64
    ensures { result ≡ get_or (export_fields e) field none }
{
    match field {
        0 => e.index as u64,
        1 => u64::from(e.number),
        2 => e.outer,
        3 => e.class,
        4 => e.parent,
        5 => e.hash,
        _ => ABSENT,
    }
}

// Export i: name index, number, outer, class, super, public hash.
#[unsafe(no_mangle)]
pub extern "C" fn zen_export(b: &[u8], i: usize, field: u32) -> u64
    ensures { result ≡ export_answer (package_in b.now) i field }
{
    let Ok(p) = Package::open(b) else {
        return ABSENT;
    };
    if export_count(p.layout) <= i {
        return ABSENT;
    }
    export_field(p.export_at(i), field)
}
