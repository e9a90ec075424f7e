// The packages' blocks, in corpus order.
ghost use Rattle.std.specs.Prelude.{◌≡◌, ◌+◌, ◌^◌, ◌≤◌, OnOk};
ghost use Rattle.base.specs.Refusal.{located};
ghost use Rattle.meaning.specs.Call.{read_from};
ghost use Rattle.packages.specs.Framing.{parts_at};
ghost use Rattle.packages.specs.Walk.{AllRead};
ghost use Rattle.scan.specs.Blocks.{blocks_as};

use base::refusal::Refused;
use packages::frame::{block_at, next_at};
use packages::site::Packages;
use zen::zen::check_package;

// What the first block of the packages' that is refused is refused for.
pub fn check_packages(p: &Packages) -> Result<(), Refused>
    requires { p.now.count + 2 ≤ 2 ^ 32 }
    ensures is { located result ≡ blocks_as (read_from 2 (parts_at p.now.corpus.now p.now.at p.now.count)) }
    ensures all { OnOk result (AllRead p.now.corpus.now p.now.at p.now.count) }
{
    let mut here = p.at;
    for i in 0..p.count {
        let block = (i + 2) as u32;
        check_package(block_at(p.corpus, here)).map_err(|why| why.at(block))?;
        here = next_at(p.corpus, here);
    }
    Ok(())
}
