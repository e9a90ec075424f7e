// Question 24: each class is compared with all before it.
ghost use Rattle.std.specs.Prelude.{[], ◌≡◌, ◌+◌, ◌^◌, ◌≤◌, ◌<◌};
ghost use Rattle.base.specs.OneMore.{nonzero};
ghost use Rattle.base.specs.Reading.{gives, run};
ghost use Rattle.scriptblock.specs.Script.{Objects, script};
ghost use Rattle.meaning.specs.Call.{placed_from, first_repeat};
ghost use Rattle.packages.specs.Package.{read_in};
ghost use Rattle.packages.specs.Walk.{package_at, place_of, packages_at, AllRead};
ghost use Rattle.scan.specs.Repeats.{ReadAt, is_class_of, has_class, has_public, is_before, is_repeat, repeats_in, repeat_block};

use super::script::Script;
use packages::block::Block;
use packages::frame::{block_at, id_at, next_at};
use packages::site::Packages;
use zen::tables::Export;

// Kept: the loop that goes from package to package is written out, here and wherever it is needed, since an iterator of the repository's own would be told in
// its contract what `Sites` and `place_of` say.

// Whether an export is a class with this hash.
fn is_class_of(s: &Script, e: Export, hash: u64) -> bool
    ensures { (o : Objects) → run script 0 s.now.block.bytes.now ≡ gives o → result ≡ is_class_of s.now.limit o hash e }
{
    e.hash == hash && s.is_class(e)
}

// Whether one of the first n exports of a block is.
fn has_class(b: &Block, n: usize, hash: u64, s: &Script) -> bool
    requires { n ≤ b.now.parts.count }
    ensures { (o : Objects) → run script 0 s.now.block.bytes.now ≡ gives o → result ≡ has_class s.now.limit o (read_in b.now.bytes.now).exports n hash }
{
    for j in 0..n {
        if is_class_of(s, b.export(j), hash) {
            return true;
        }
    }
    false
}

// Whether the package at a place has a class with this key.
fn has_public(c: &[u8], here: usize, id: u64, hash: u64, s: &Script) -> bool
    requires { ReadAt c.now here }
    ensures { (o : Objects) → run script 0 s.now.block.bytes.now ≡ gives o → result ≡ has_public s.now.limit o (package_at c.now here) id hash }
{
    if id_at(c, here) != id {
        return false;
    }
    let b = Block::of(block_at(c, here));
    has_class(&b, b.parts.count, hash, s)
}

// Whether one of the first n packages does.
fn is_before(p: &Packages, n: usize, id: u64, hash: u64, s: &Script) -> bool
    requires { (n ≤ p.now.count) × AllRead p.now.corpus.now p.now.at n }
    ensures { (o : Objects) → run script 0 s.now.block.bytes.now ≡ gives o → result ≡ is_before s.now.limit o p.now.corpus.now p.now.at n id hash }
{
    let mut here = p.at;
    for _ in 0..n {
        if has_public(p.corpus, here, id, hash, s) {
            return true;
        }
        here = next_at(p.corpus, here);
    }
    false
}

// Whether export j of package i, with this id and block, is a class whose key an earlier one has.
fn is_repeat(p: &Packages, i: usize, id: u64, b: &Block, j: usize, s: &Script) -> bool
    requires read { (i ≤ p.now.count) × AllRead p.now.corpus.now p.now.at i }
    requires number { j < b.now.parts.count }
    ensures { (o : Objects) → run script 0 s.now.block.bytes.now ≡ gives o
        → result ≡ is_repeat s.now.limit o p.now.corpus.now p.now.at i (read_in b.now.bytes.now).exports id j }
{
    let e = b.export(j);
    if !s.is_class(e) {
        return false;
    }
    has_class(b, j, e.hash, s) || is_before(p, i, id, e.hash, s)
}

// Whether package i, which is at this place, has one.
fn repeats_in(p: &Packages, i: usize, here: usize, s: &Script) -> bool
    requires { (i < p.now.count) × AllRead p.now.corpus.now p.now.at (i + 1) × (here ≡ place_of p.now.corpus.now p.now.at i) }
    ensures { (o : Objects) → run script 0 s.now.block.bytes.now ≡ gives o → result ≡ repeats_in s.now.limit o p.now.corpus.now p.now.at i }
{
    let id = id_at(p.corpus, here);
    let b = Block::of(block_at(p.corpus, here));
    for j in 0..b.parts.count {
        if is_repeat(p, i, id, &b, j, s) {
            return true;
        }
    }
    false
}

// The block of the first class whose key an earlier one has, if there is one.
pub fn repeat_block(p: &Packages, s: &Script) -> Option<u32>
    requires { AllRead p.now.corpus.now p.now.at p.now.count × (p.now.count + 2 ≤ 2 ^ 32) }
    ensures { (o : Objects) → run script 0 s.now.block.bytes.now ≡ gives o
        → result ≡ nonzero (repeat_block (first_repeat [] (placed_from s.now.limit o 2 (packages_at p.now.corpus.now p.now.at p.now.count)))) }
{
    let mut here = p.at;
    for i in 0..p.count {
        if repeats_in(p, i, here, s) {
            return Some((i + 2) as u32);
        }
        here = next_at(p.corpus, here);
    }
    None
}
