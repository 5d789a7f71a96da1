// Reading a line: ESN, the typed digits, RANDSSD, RAND and AUTH_DATA.
use crate::terminal::Numbers;
use fields::expected::{Expected, Form};
use fields::words::{Words, text_of};
use thiserror::Error;

// A terminal to key.
#[derive(Clone, Copy)]
pub struct Request<'a> {
    pub esn: u32,
    pub typed: &'a [u8],
    pub numbers: Numbers,
}

// Why a line cannot be read.
#[derive(Clone, Copy, PartialEq, Eq, Debug, Error)]
pub(crate) enum Fault {
    #[error("{0}")]
    Field(#[from] Expected),
    #[error("expected no more than five fields")]
    MoreFields,
}

// The digits as they were typed.
fn read_typed<'a>(words: &mut Words<'a>) -> Result<&'a [u8], Expected> {
    Ok(text_of(words.next_word().ok_or(Expected(Form::TypedDigits))?))
}

// The request of a line.
pub(crate) fn read_request(line: &[u8]) -> Result<Request<'_>, Fault> {
    let mut words = Words::new(line);
    let request = Request {
        esn: words.field(Form::Esn)?,
        typed: read_typed(&mut words)?,
        numbers: Numbers {
            rand_ssd: words.field(Form::RandSsd)?,
            rand: words.field(Form::Rand)?,
            auth_data: words.field(Form::AuthData)?,
        },
    };
    match words.next_word() {
        None => Ok(request),
        Some(_) => Err(Fault::MoreFields),
    }
}
