// The output, written: 25 bytes and one for each package.
ghost use Rattle.std.specs.Prelude.{map, ◌++◌, ◌+◌, ◌^◌, ◌≤◌, ◌<◌, length};
ghost use Rattle.base.specs.Number.{be_bytes};
ghost use Rattle.base.specs.Output.{Wrote};
ghost use Rattle.meaning.specs.Verify.{package_flag, output_with};
ghost use Rattle.packages.specs.Walk.{packages_at, AllRead};
ghost use Rattle.verify.specs.Tallies.{counts_by, count_bytes, front_of};

use super::counts::Tally;
use super::flags::put_flags;
use base::output::{put_be32, put_byte};
use packages::site::Packages;

// Kept: that no more match than are resolved is a `requires`, and no ghost field of Tally: the definitions make tallies (`tallied`, `tally_of`), and would
// prove it of each. And the objects stand beside it: they are the layout's, and not counted.

// Two counts.
fn put_two(out: &mut [u8], first: u32, second: u32)
    requires { 8 ≤ length out.old }
    ensures { Wrote out.old (be_bytes 4 first ++ be_bytes 4 second) out.new 8 }
{
    put_be32(out, first);
    put_be32(&mut out[4..], second);
}

// The four counts: what is resolved matches or doesn't.
fn put_counts(out: &mut [u8], objects: u32, t: Tally)
    requires { (16 ≤ length out.old) × (t.matches ≤ t.resolved) }
    ensures { Wrote out.old (count_bytes (counts_by objects t)) out.new 16 }
{
    put_two(out, objects, t.resolved);
    put_two(&mut out[8..], t.matches, t.resolved - t.matches);
}

// What stands before the flags: the length of what follows, version, the four counts, the package count.
fn put_front(out: &mut [u8], objects: u32, t: Tally, count: u32)
    requires { (25 ≤ length out.old) × (t.matches ≤ t.resolved) × (count + 21 < 2 ^ 32) }
    ensures { Wrote out.old (front_of (counts_by objects t) count) out.new 25 }
{
    put_be32(out, count + 21);
    put_byte(&mut out[4..], 1);
    put_counts(&mut out[5..], objects, t);
    put_be32(&mut out[21..], count);
}

// The output for packages.
pub fn put_output(out: &mut [u8], p: &Packages, objects: usize, t: Tally) -> usize
    requires read { AllRead p.now.corpus.now p.now.at p.now.count × (25 + p.now.count ≤ length out.old) }
    requires objects_bound { (objects < 2 ^ 32) × (t.matches ≤ t.resolved) × (p.now.count + 21 < 2 ^ 32) }
    ensures { Wrote out.old (output_with (counts_by objects t) (map package_flag (packages_at p.now.corpus.now p.now.at p.now.count))) out.new result }
{
    put_front(out, objects as u32, t, p.count as u32);
    25 + put_flags(&mut out[25..], p)
}
