// A read position over a borrowed block (reader.rs). The struct keeps the Rust's form, and its methods are thin: each calls a plain
// function on the slice and the number.
ghost use Rattle.std.specs.Prelude.{◌≡◌};
ghost use Rattle.batch.specs.Cursor.{word_at, found_word, behind};

#[derive(Clone, Copy)]
pub struct Cursor<'a> {
    pub buf: &'a [u8],
    pub pos: usize,
}

// The u32 at a position and the position behind it, if its bytes are there.
pub fn u32_from(s: &[u8], at: usize) -> Option<(u32, usize)>
    ensures { result ≡ word_at s.now at }
{
    let n = s.len();
    if n < 4 || n - 4 < at {
        return None;
    }
    Some((base::number::le32(s, at), at + 4))
}

// The position that a read leaves: behind what it found, or where it was.
#[tactic(auto, unfolding(crate::specs::Cursor::behind))]
pub fn pos_behind(w: Option<(u32, usize)>, at: usize) -> usize
    ensures { result ≡ behind w at }
{
    match w {
        Some((_, next)) => next,
        None => at,
    }
}

impl<'a> Cursor<'a> {
    // A cursor at the start of a block.
    pub fn new(buf: &'a [u8]) -> Cursor<'a>
        ensures { (result.buf ≡ buf.entry) × (result.pos ≡ 0) }
    {
        Cursor { buf, pos: 0 }
    }

    // The u32 that the cursor is at. It goes behind what it found, and stays where nothing is there.
    pub fn read_u32(&mut self) -> Option<u32>
        ensures number { result ≡ found_word (word_at self.old.buf.now self.old.pos) }
        ensures place { self.new.pos ≡ behind (word_at self.old.buf.now self.old.pos) self.old.pos }
        ensures block { self.new.buf ≡ self.old.buf }
    {
        let (word, next) = u32_from(self.buf, self.pos)?;
        self.pos = next;
        Some(word)
    }

    // The cursor behind what a read found, and where it was if it found nothing.
    pub fn next(self, w: Option<(u32, usize)>) -> Cursor<'a>
        ensures { (result.buf ≡ self.entry.buf) × (result.pos ≡ behind w self.entry.pos) }
    {
        Cursor {
            buf: self.buf,
            pos: pos_behind(w, self.pos),
        }
    }
}
