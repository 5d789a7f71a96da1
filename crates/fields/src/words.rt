// The words of a line, taken one by one from the front. They are bytes and no `str`, since what reads a word takes bytes: key
// digits are bytes as they were typed.
ghost use Rattle.std.specs.Prelude.{◌≡◌, length, take_while};
ghost use Rattle.std.specs.Option.{option_copied};
ghost use Rattle.fields.specs.Words.{is_blank, word_prefix, first_word, behind_word, unless_empty, unless_dash};
ghost use Rattle.fields.specs.Fields.{or_expected};

use crate::expected::{Expected, Form};
use crate::field::Field;

// What is left of a line. No `Iterator`: its members would speak of all words of the line at once, and a clause here speaks of
// the next one.
#[derive(Clone, Copy, PartialEq, Eq, Debug)]
pub struct Words<'a> {
    pub rest: &'a [u8],
}

fn is_blank(byte: u8) -> bool
    ensures { result ≡ is_blank byte }
{
    matches!(byte, b' ' | b'\t' | b'\r')
}

// How many bytes in front are blank.
fn count_blanks(line: &[u8]) -> usize
    ensures { result ≡ length (take_while is_blank line.now) }
{
    line.iter().take_while(|&&b| is_blank(b)).count()
}

// How many bytes in front are not. One line each: one function for both would need a closure and a clause over it.
fn word_length(text: &[u8]) -> usize
    ensures { result ≡ length (word_prefix text.now) }
{
    text.iter().take_while(|&&b| !is_blank(b)).count()
}

impl<'a> Words<'a> {
    // The words of this line.
    pub fn new(line: &'a [u8]) -> Self
        ensures { result.rest.now ≡ line.now }
    {
        Words { rest: line }
    }

    // The next word, if there is one.
    pub fn next_word(&mut self) -> Option<&'a [u8]>
        ensures word { option_copied result ≡ unless_empty (first_word self.old.rest.now) }
        ensures rest { self.new.rest.now ≡ behind_word self.old.rest.now }
    {
        let text = &self.rest[count_blanks(self.rest)..];
        let (word, rest) = text.split_at(word_length(text));
        self.rest = rest;
        if word.is_empty() { None } else { Some(word) }
    }

    // The next word as a value of this type; where it is none, this form was expected.
    pub fn field<F: Field>(&mut self, form: Form) -> Result<F, Expected>
        ensures value { result ≡ or_expected form (F.value_of (first_word self.old.rest.now)) }
        ensures rest { self.new.rest.now ≡ behind_word self.old.rest.now }
    {
        let word = self.next_word().ok_or(Expected(form))?;
        F::read(word).ok_or(Expected(form))
    }
}

// The text that a word writes: `-` stands for an empty one.
pub fn text_of(word: &[u8]) -> &[u8]
    ensures { result.now ≡ unless_dash word.now }
{
    match word {
        b"-" => &[],
        _ => word,
    }
}
