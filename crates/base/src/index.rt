// The fields of object indices and mapped names, by shifts and masks; the contracts say them by division and remainder.
ghost use Rattle.std.specs.Prelude.{◌≡◌};
ghost use Rattle.base.specs.Index.{kind, value, name_index, import_name, import_hash};
ghost use Rattle.base.specs.Kind.{kind_number};

// What an index points to: an export of its package, a script object, an imported name's export, or nothing.
#[derive(Clone, Copy, PartialEq, Eq)]
pub enum Kind {
    Export,
    Script,
    Import,
    Null,
}

// The kind of an index: its top two bits.
pub fn index_kind(x: u64) -> Kind
    ensures { kind_number result ≡ kind x }
{
    match x >> 62 {
        0 => Kind::Export,
        1 => Kind::Script,
        2 => Kind::Import,
        _ => Kind::Null,
    }
}

// The index without its kind.
pub fn index_value(x: u64) -> u64
    ensures { result ≡ value x }
{
    x & 0x3fff_ffff_ffff_ffff
}

// The low 30 bits of a mapped name's index.
pub fn name_index(x: u32) -> u32
    ensures { result ≡ name_index x }
{
    x & 0x3fff_ffff
}

// A package import's name number: bits 32 to 61.
pub fn import_name(x: u64) -> u64
    ensures { result ≡ import_name x }
{
    (x >> 32) & 0x3fff_ffff
}

// A package import's hash number: bits 0 to 31.
pub fn import_hash(x: u64) -> u64
    ensures { result ≡ import_hash x }
{
    x & 0xffff_ffff
}
