// A part of a block, and one that is a text.
ghost use Rattle.std.specs.Prelude.{◌≡◌, true};
ghost use Rattle.base.specs.NumberLaws.{Bytes};
ghost use Rattle.text.specs.Utf16.{is_well};
ghost use Rattle.text.specs.Name.{decoded};

// A part of a block as it is stored: bytes of one-byte text, or of wide text, whose units have 16 bits.
// Kept: bytes and a flag, as C and the headers of names give them: of an enum the fact that its bytes are bytes would stand on a struct inside each variant,
// `Part::Wide(Stored { bytes })`, since a variant can't have a ghost field.
#[derive(Clone, Copy)]
pub struct Part<'a> {
    pub bytes: &'a [u8],
    pub wide: bool,
    ghost fits: { Bytes bytes.now },
}

// One-byte text, or wide text whose surrogates pair.
#[derive(Clone, Copy)]
pub struct Text<'a> {
    pub part: Part<'a>,
    ghost well: { is_well (decoded part.wide part.bytes.now) ≡ true },
}
