// The hex fields of a line of text: two upper-case hex digits to a byte, the high digit first. Public: `read_hex` (a field, into a
// buffer that says how many bytes it has) with its error `NotAField`, `read_array` (a field of a fixed number of bytes), and `Hex`,
// whose text is such a field. The library `hex` reads lower-case digits too.
#![tactic(auto)]

ghost use Rattle.std.specs.Prelude.{◌≡◌, ◌↔◌, ◌<◌, length, IsTrue, IsOk, if◌then◌else◌};
ghost use Rattle.hex_field.specs.Hex.{is_hex, hex_value, all_hex, is_field, field_bytes, field_read};

use std::fmt;
use thiserror::Error;

// The text is no field of as many bytes as were asked for.
#[derive(Clone, Copy, PartialEq, Eq, Debug, Error)]
#[error("not two upper-case hex digits for each byte that was asked for")]
pub struct NotAField;

// Whether a byte is an upper-case hex digit.
fn is_hex(b: u8) -> bool
    ensures { result ≡ is_hex b }
{
    matches!(b, b'0'..=b'9' | b'A'..=b'F')
}

// The value of a hex digit, and 0 for any other byte. No `Option`: it is asked only of bytes that were tested.
fn value(b: u8) -> u8
    ensures is { result ≡ hex_value b }
    ensures small { result < 16 }
{
    match b {
        b'0'..=b'9' => b - b'0',
        b'A'..=b'F' => b - b'A' + 10,
        _ => 0,
    }
}

// Whether every byte is a hex digit.
fn all_hex(text: &[u8]) -> bool
    ensures { result ≡ all_hex text.now }
{
    text.iter().all(|&b| is_hex(b))
}

// Reads two upper-case hex digits a byte into the whole of `out`; a text that is not just that leaves `out` as it was.
#[tactic(auto, unfolding(crate::specs::Hex::is_field, crate::specs::Hex::field_byte, crate::specs::Hex::field_bytes))]
pub fn read_hex(text: &[u8], out: &mut [u8]) -> Result<(), NotAField>
    ensures answer { IsOk result ↔ IsTrue (is_field text.now (length out.old)) }
    ensures after { out.new ≡ (if is_field text.now (length out.old) then field_bytes text.now (length out.old) else out.old) }
{
    if text.len() != 2 * out.len() || !all_hex(text) {
        return Err(NotAField);
    }
    // By index: of what is written through a `zip` with pairs of digits nothing is known.
    for (k, byte) in out.iter_mut().enumerate() {
        *byte = value(text[2 * k]) * 16 + value(text[2 * k + 1]);
    }
    Ok(())
}

// The N bytes of a field, if the text is one.
pub fn read_array<const N: usize>(text: &[u8]) -> Option<[u8; N]>
    ensures { result ≡ field_read text.now N }
{
    let mut bytes = [0; N];
    read_hex(text, &mut bytes).ok()?;
    Some(bytes)
}

// Bytes as they are written in hex.
#[derive(Clone, Copy, PartialEq, Eq, Debug)]
pub struct Hex<'a>(pub &'a [u8]);

impl fmt::Display for Hex<'_> {
    fn fmt<W: fmt::Write>(&self, f: &mut fmt::Formatter<W>) -> fmt::Result {
        for byte in self.0 {
            write!(f, "{byte:02X}")?;
        }
        Ok(())
    }
}
