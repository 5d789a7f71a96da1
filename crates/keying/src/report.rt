// What is printed of a keying.
use crate::terminal::Keyed;
use hex_field::Hex;
use refusal::Refusal;
use std::fmt;

impl fmt::Display for Keyed {
    fn fmt<W: fmt::Write>(&self, f: &mut fmt::Formatter<W>) -> fmt::Result {
        writeln!(f, "accepted")?;
        writeln!(f, "  A-key       {:016X}", self.key)?;
        writeln!(f, "  SSD_A       {:016X}", self.ssd.a)?;
        writeln!(f, "  SSD_B       {:016X}", self.ssd.b)?;
        writeln!(f, "  signature   {:05X}", self.signature)?;
        writeln!(f, "  CMEA key    {}", Hex(&self.call.cmea_key))?;
        write!(f, "  voice mask  {}", Hex(&self.call.voice_mask))
    }
}

// A refusal with what it means.
#[derive(Clone, Copy)]
pub(crate) struct Explained(pub(crate) Refusal);

impl fmt::Display for Explained {
    fn fmt<W: fmt::Write>(&self, f: &mut fmt::Formatter<W>) -> fmt::Result {
        write!(f, "{}: ", self.0)?;
        match self.0 {
            Refusal::NotADigit { index } => write!(f, "the byte at index {index} is no digit"),
            Refusal::WrongCount { count } => write!(f, "{count} digits, and not 6 to 26"),
            Refusal::CheckDiffers => {
                write!(f, "the last six digits are not the check of the others")
            }
            Refusal::WrongLength { length, .. } => {
                write!(f, "a cipher does not take {length} bytes")
            }
        }
    }
}
