// What the programs read of a line: its words, and the values that they write in hex. Public: in `words`, `Words` with `new`,
// `next_word` and `field`, and `text_of`; in `field`, the trait `Field` of the values that a word can be read as, and
// `ShortNumber`; in `expected`, the error that says which form of a field should have stood there.
#![tactic(auto)]

pub mod expected;
pub mod field;
pub mod words;
