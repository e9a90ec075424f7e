// The text of a reference (class_ref): measured and written.
ghost use Rattle.std.specs.Prelude.{◌≡◌, ◌++◌, ◌≤◌, ◌<◌, length};
ghost use Rattle.text.specs.Digits.{hex};
ghost use Rattle.base.specs.Index.{import_name, import_hash};
ghost use Rattle.base.specs.Literal.{quoted};
ghost use Rattle.base.specs.Output.{Wrote};
ghost use Rattle.packages.specs.Package.{read_in};
ghost use Rattle.packages.specs.Kinds.{class_code};
ghost use Rattle.packages.specs.Meaning.{kind_by};
ghost use Rattle.packages.specs.RefBytes.{import_bad, export_bad, bad_by, import_bytes, export_bytes, ref_bytes};

use super::block::Package;
use super::names::{put_behind, put_numbers};
use super::package::{ClassKind, Parts};
use base::index::{Kind, import_hash, import_name, index_kind};
use base::output::put_bytes;
use batch::texts::place_len;
use text::digits::{decimal_len, put_hex};

impl Parts {
    // The length of a bad reference's text.
    fn bad_len(&self, index: u64) -> usize
        ensures { (result ≡ length (bad_by self.now index)) × (result ≤ 124) }
    {
        match index_kind(index) {
            Kind::Import => {
                let name = decimal_len(import_name(index));
                let hash = decimal_len(import_hash(index));
                44 + name
                    + hash
                    + decimal_len(self.imported.count as u64)
                    + decimal_len(self.publics as u64)
            }
            _ => 30 + decimal_len(index) + decimal_len(self.count as u64),
        }
    }

    fn put_bad_import(&self, out: &mut [u8], index: u64) -> usize
        requires { length (import_bad self.now index) ≤ length out.old }
        ensures { Wrote out.old (import_bad self.now index) out.new result }
    {
        let mut n = put_numbers(
            out,
            b"package import ",
            import_name(index),
            b"/",
            import_hash(index),
        );
        n += put_numbers(
            &mut out[n..],
            b" outside ",
            self.imported.count as u64,
            b" packages / ",
            self.publics as u64,
        );
        n + put_bytes(&mut out[n..], b" hashes")
    }

    fn put_bad_export(&self, out: &mut [u8], index: u64) -> usize
        requires { length (export_bad self.now index) ≤ length out.old }
        ensures { Wrote out.old (export_bad self.now index) out.new result }
    {
        let n = put_numbers(
            out,
            b"local export ",
            index,
            b" outside ",
            self.count as u64,
        );
        n + put_bytes(&mut out[n..], b" exports")
    }

    // The text of a bad reference, with the counts.
    fn put_bad(&self, out: &mut [u8], index: u64) -> usize
        requires { length (bad_by self.now index) ≤ length out.old }
        ensures { Wrote out.old (bad_by self.now index) out.new result }
    {
        match index_kind(index) {
            Kind::Import => self.put_bad_import(out, index),
            _ => self.put_bad_export(out, index),
        }
    }
}

// A text, and a number in 16 hexadecimal digits behind it.
fn put_index(out: &mut [u8], text: &[u8], n: u64) -> usize
    requires { length (text.now ++ hex 16 n) ≤ length out.old }
    ensures { Wrote out.old (text.now ++ hex 16 n) out.new result }
{
    let at = put_bytes(out, text);
    at + put_hex(&mut out[at..], n, 16)
}

impl<'a> Package<'a> {
    fn import_len(&self, index: u64) -> usize
        requires { import_name index < self.now.block.parts.imported.count }
        ensures { (result ≡ length (import_bytes (read_in self.now.block.bytes.now) index)) × (result ≤ 131116) }
    {
        let i = import_name(index) as usize;
        27 + place_len(self.block.bytes, self.imported_name(i))
    }

    fn export_len(&self, i: usize) -> usize
        requires { i < self.now.block.parts.count }
        ensures { (result ≡ length (export_bytes (read_in self.now.block.bytes.now) i)) × (result ≤ 131096) }
    {
        let e = self.block.export(i);
        7 + place_len(self.block.bytes, self.name_of(e))
    }

    // How many bytes the text of an index's reference takes.
    pub fn reference_len(&self, index: u64, kind: ClassKind) -> usize
        requires { class_code kind ≡ kind_by self.now.block.parts index }
        ensures { (result ≡ length (ref_bytes self.now.block.bytes.now index)) × (result ≤ 131116) }
    {
        match kind {
            ClassKind::Script => 25,
            ClassKind::Import => self.import_len(index),
            ClassKind::Export => self.export_len(index as usize),
            ClassKind::Null => 4,
            ClassKind::Bad => self.block.parts.bad_len(index),
        }
    }

    fn put_import(&self, out: &mut [u8], index: u64) -> usize
        requires { (import_name index < self.now.block.parts.imported.count) × (import_hash index < self.now.block.parts.publics)
            × (length (import_bytes (read_in self.now.block.bytes.now) index) ≤ length out.old) }
        ensures { Wrote out.old (import_bytes (read_in self.now.block.bytes.now) index) out.new result }
    {
        let i = import_name(index) as usize;
        let n = put_behind(out, b"package:", self.block.bytes, self.imported_name(i));
        let hash = self.block.hash(import_hash(index) as usize);
        n + put_index(&mut out[n..], b"#0x", hash)
    }

    fn put_export(&self, out: &mut [u8], i: usize) -> usize
        requires { (i < self.now.block.parts.count) × (length (export_bytes (read_in self.now.block.bytes.now) i) ≤ length out.old) }
        ensures { Wrote out.old (export_bytes (read_in self.now.block.bytes.now) i) out.new result }
    {
        let e = self.block.export(i);
        put_behind(out, b"export:", self.block.bytes, self.name_of(e))
    }

    // The text of an index's reference.
    pub fn put_reference(&self, out: &mut [u8], index: u64, kind: ClassKind) -> usize
        requires { (class_code kind ≡ kind_by self.now.block.parts index) × (length (ref_bytes self.now.block.bytes.now index) ≤ length out.old) }
        ensures { Wrote out.old (ref_bytes self.now.block.bytes.now index) out.new result }
    {
        match kind {
            ClassKind::Script => put_index(out, b"script:0x", index),
            ClassKind::Import => self.put_import(out, index),
            ClassKind::Export => self.put_export(out, index as usize),
            ClassKind::Null => put_bytes(out, b"null"),
            ClassKind::Bad => self.block.parts.put_bad(out, index),
        }
    }
}
