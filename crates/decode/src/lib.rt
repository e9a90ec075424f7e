// UTF-8 read: what bytes mean as text, and that text written as Latin-1 or UTF-16LE.

#![tactic(auto)]

pub mod chars; // one character at a time
pub mod latin; // text that fits Latin-1
pub mod eight; // eight bytes of ASCII at once, or four
pub mod step; // a few characters at once
pub mod measure; // whether bytes are UTF-8, and how long the text is
pub mod narrow; // text of one and two bytes a character, many bytes at a time
pub mod run; // four characters of two bytes or of three at once
pub mod tails; // text that fits Latin-1, byte by byte
pub mod pairs; // the same, many pairs of bytes at once
pub mod write; // that text as Latin-1 or UTF-16LE
