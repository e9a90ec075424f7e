// The class test, by looking at each object.
ghost use Rattle.std.specs.Prelude.{◌≡◌, ◌<◌, get_or};
ghost use Rattle.text.specs.Affix.{ends_with};
ghost use Rattle.base.specs.Reading.{gives, run};
ghost use Rattle.scriptblock.specs.Script.{Objects, script, object_name};
ghost use Rattle.scriptblock.specs.ScriptAnswers.{no_entry};
ghost use Rattle.meaning.specs.ClassTest.{is_known, names_class};
ghost use Rattle.meaning.specs.Path.{path_of};
ghost use Rattle.meaning.specs.Scan.{class_end, is_class};

use super::script::Script;
use base::index::{Kind, index_kind};
use batch::texts::place_ends_with;
use zen::tables::Export;

impl<'a> Script<'a> {
    // Whether the path of the object with a global index is known.
    fn known(&self, index: u64) -> bool
        ensures { (o : Objects) → run script 0 self.now.block.bytes.now ≡ gives o → result ≡ is_known (path_of self.now.limit o index) }
    {
        let mut at = index;
        for _ in 0..self.limit {
            let Some(k) = self.block.find(at) else {
                return false;
            };
            let e = self.block.entry(k);
            match index_kind(e.outer) {
                Kind::Null => return true,
                _ => at = e.outer,
            }
        }
        false
    }

    // Whether the name of object i ends in `Class`: it has no number, and its base does.
    fn ends_in_class(&self, i: usize) -> bool
        requires { i < self.now.block.layout.count }
        ensures { (o : Objects) → run script 0 self.now.block.bytes.now ≡ gives o → result ≡ ends_with (object_name o (get_or o.entries i no_entry)) class_end }
    {
        let e = self.block.entry(i);
        if e.number != 0 {
            return false;
        }
        place_ends_with(self.block.bytes, self.names.place(e.index), b"Class")
    }

    // Whether the path of the object with a global index is known and names a class.
    fn names_class(&self, index: u64) -> bool
        ensures { (o : Objects) → run script 0 self.now.block.bytes.now ≡ gives o → result ≡ names_class (path_of self.now.limit o index) }
    {
        let Some(k) = self.block.find(index) else {
            return false;
        };
        self.ends_in_class(k) && self.known(index)
    }

    // Whether an export is a class. Written out where it is called: else each export is put into memory for the call, whatever its hash, and question 24 takes
    // three times as long.
    #[inline(always)]
    pub fn is_class(&self, e: Export) -> bool
        ensures { (o : Objects) → run script 0 self.now.block.bytes.now ≡ gives o → result ≡ is_class self.now.limit o e }
    {
        if e.hash == 0 {
            return false;
        }
        let Kind::Script = index_kind(e.class) else {
            return false;
        };
        if let Kind::Null = index_kind(e.parent) {
            return false;
        }
        self.names_class(e.class)
    }
}
