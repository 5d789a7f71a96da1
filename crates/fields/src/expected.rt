// What was expected in the place of what a line has.
use std::fmt;
use thiserror::Error;

// The form of a field.
#[derive(Clone, Copy, PartialEq, Eq, Debug)]
pub enum Form {
    AuthData,
    Esn,
    Hook,
    K,
    KeyDigits,
    Length,
    Lfsr,
    Message,
    Offset,
    Rand,
    RandSsd,
    Secret,
    TypedDigits,
}

impl fmt::Display for Form {
    fn fmt<W: fmt::Write>(&self, f: &mut fmt::Formatter<W>) -> fmt::Result {
        f.write_str(match self {
            Form::AuthData => "AUTH_DATA: 6 hex digits",
            Form::Esn => "ESN: 8 hex digits",
            Form::Hook => "HOOK: 8 hex digits",
            Form::K => "K: 8 hex digits",
            Form::KeyDigits => "DIGITS: 1 to 20 decimal digits, or - for none",
            Form::Length => "LENGTH: a hex number from 0 to FFFF",
            Form::Lfsr => "LFSR: 8 hex digits",
            Form::Message => "MESSAGE: two hex digits a byte, or - for none",
            Form::Offset => "OFFSET: 2 hex digits",
            Form::Rand => "RAND: 8 hex digits",
            Form::RandSsd => "RANDSSD: 14 hex digits",
            Form::Secret => "KEY or SSD: 16 hex digits",
            Form::TypedDigits => "DIGITS: as typed, or - for none",
        })
    }
}

// A field of this form is missing, or stands there in another form.
#[derive(Clone, Copy, PartialEq, Eq, Debug, Error)]
#[error("expected {0}")]
pub struct Expected(pub Form);
