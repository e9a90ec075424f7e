// What a call refuses a corpus, a block, a description or a buffer for, and the number that says so.
ghost use Rattle.std.specs.Prelude.{◌≡◌};
ghost use Rattle.base.specs.Refusal.{number};

#[derive(Clone, Copy, PartialEq, Eq)]
pub enum Refusal {
    Framing = 1,
    Version = 2,
    Cut = 3,
    HashVersion = 4,
    NameOutside = 5,
    IllFormedName = 6,
    StringsLeft = 7,
    NegativeCount = 8,
    CountTooLarge = 9,
    NameIndex = 10,
    NotAnObject = 11,
    RepeatedObject = 12,
    EntriesLeft = 13,
    Flag = 14,
    HeaderSize = 15,
    NegativeOffset = 16,
    OffsetOrder = 17,
    NegativeBulk = 18,
    BulkEnd = 19,
    Multiples = 20,
    ExportMultiples = 21,
    NamesLeft = 22,
    RepeatedClass = 24,
    WorkRoom = 25,
    ReportRoom = 26,
    Malformed = 27,
    HeaderRoom = 28,
    Limits = 29,
}

impl Refusal {
    // The question's number.
    pub fn number(self) -> u8
        ensures { result ≡ number self }
    {
        self as u8
    }

    // A refusal of a block.
    pub fn at(self, block: u32) -> Refused
        ensures { (result.why ≡ self) × (result.block ≡ block) }
    {
        Refused { why: self, block }
    }
}

// A refusal, and the block that it is of: 0 for none, 1 for the script block, 2 and on for the packages.
// Kept: block 0 and no Option: the number that C sees has it (include/classreport.h, `classreport_block`).
#[derive(Clone, Copy, PartialEq, Eq)]
pub struct Refused {
    pub why: Refusal,
    pub block: u32,
}
