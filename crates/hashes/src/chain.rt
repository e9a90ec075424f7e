// An object and those outside it, the innermost first, by their names in a lent array.
ghost use Rattle.std.specs.Prelude.{List, ◌≡◌, ℕ, ◌*◌, ◌≤◌, ◌<◌, length, take, drop, MatchOption, IfSome};
ghost use Rattle.std.proofs.Math.Option.{none};
ghost use Rattle.base.specs.NumberLaws.{Bytes};
ghost use Rattle.base.specs.Reading.{gives, run};
ghost use Rattle.scriptblock.specs.Script.{Objects, script};
ghost use Rattle.objects.specs.Numbers.{path_no};
ghost use Rattle.objects.specs.Work.{Linked, ObjectsIn};
ghost use Rattle.hashes.specs.Chain.{Tells};

use base::index::{Kind, index_kind};
use batch::places::{Name, Place};
use objects::object::{Outer, name_of, object_at};
use scan::script::Script;

// How many objects a chain has at most, and so how many names a caller lends room for.
pub const DEPTH: usize = 65;

// What that room holds before.
pub const NO_NAME: Name = Name {
    place: Place {
        start: 0,
        size: 0,
        wide: false,
    },
    number: 0,
};

// Kept: a loop for each way: over a closure they would be `chain_by(i, chain, |at| linked(w, at))` and `chain_by(i, chain, |at| scanned(s, at))`, with
// functions to `(Name, Outer)` nearly as long as these bodies; and its contract would say besides where the closure may be called, where an outer that it
// tells leads, and that it tells object `at`, which rests on the links in the work buffer here and on the block's entries there.

// Puts the chain of object i, of at most as many objects as there is room for, in front of the room, by the links in the work buffer: how many objects it
// has, if its path is known.
pub fn put_chain(w: &[u8], i: usize, chain: &mut [Name]) -> Option<usize>
    requires { Linked w.now × (56 * i < length w.now) }
    ensures inside { IfSome result (λ d. d ≤ length chain.new) }
    ensures told { (b : List ℕ) (o : Objects) → ObjectsIn b o w.now → Bytes b → MatchOption result (path_no (length chain.old) o i ≡ none)
        (λ d. Tells b (take d chain.new) (length chain.old) (path_no (length chain.old) o i)) }
{
    let mut at = i;
    for depth in 0..chain.len() {
        let u = object_at(w, at);
        chain[depth] = name_of(u);
        match Outer::of(u.outer) {
            Outer::Missing => return None,
            Outer::Nothing => return Some(depth + 1),
            Outer::Object(outer) => at = outer,
        }
    }
    None
}

// The same, as the part of the room that the chain is.
pub fn chain_in<'a>(w: &[u8], i: usize, chain: &'a mut [Name]) -> Option<&'a [Name]>
    requires { Linked w.now × (56 * i < length w.now) }
    ensures { (b : List ℕ) (o : Objects) → ObjectsIn b o w.now → Bytes b → MatchOption result (path_no (length chain.old) o i ≡ none)
        (λ c. Tells b c.now (length chain.old) (path_no (length chain.old) o i)) }
{
    let depth = put_chain(w, i, chain)?;
    Some(&chain[..depth])
}

// The same with no work buffer, by looking in the block. A name's start is counted from where the block's names start.
pub fn put_chain_by_scan(s: &Script, i: usize, chain: &mut [Name]) -> Option<usize>
    requires { i < s.now.block.layout.count }
    ensures inside { IfSome result (λ d. d ≤ length chain.new) }
    ensures told { (o : Objects) → run script 0 s.now.block.bytes.now ≡ gives o → MatchOption result (path_no (length chain.old) o i ≡ none)
        (λ d. Tells (drop s.now.names.names.strings s.now.block.bytes.now) (take d chain.new) (length chain.old) (path_no (length chain.old) o i)) }
{
    let mut at = i;
    for depth in 0..chain.len() {
        let e = s.block.entry(at);
        let p = s.names.place(e.index);
        chain[depth] = Name {
            place: Place {
                start: p.start - s.names.names.strings,
                size: p.size,
                wide: p.wide,
            },
            number: e.number,
        };
        if let Kind::Null = index_kind(e.outer) {
            return Some(depth + 1);
        }
        at = s.block.find(e.outer)?;
    }
    None
}

// The same, as the part of the room that the chain is.
pub fn chain_by_scan<'a>(s: &Script, i: usize, chain: &'a mut [Name]) -> Option<&'a [Name]>
    requires { i < s.now.block.layout.count }
    ensures { (o : Objects) → run script 0 s.now.block.bytes.now ≡ gives o → MatchOption result (path_no (length chain.old) o i ≡ none)
        (λ c. Tells (drop s.now.names.names.strings s.now.block.bytes.now) c.now (length chain.old) (path_no (length chain.old) o i)) }
{
    let depth = put_chain_by_scan(s, i, chain)?;
    Some(&chain[..depth])
}
