// Reading a line, the name of a calculation and its fields, and answering it.
use auth::types::{Challenge, OpeningRecord, Renewal, RunEnd, TerminalKey};
use calculations::{Answer, Calculation, CallInputs, MaskInputs, perform};
use entry::read_key;
use fields::expected::{Expected, Form};
use fields::field::ShortNumber;
use fields::words::{Words, text_of};
use hex_field::read_hex;
use refusal::Refusal;
use thiserror::Error;

// What a line asks for: a calculation, and the body that it works on.
#[derive(Clone, Copy)]
pub struct Request<'a> {
    pub calculation: Calculation,
    pub body: Body<'a>,
}

// The body of a calculation.
#[derive(Clone, Copy)]
pub enum Body<'a> {
    // the bytes that hex digits write
    Hex(&'a [u8]),
    // room for so many bytes
    Room(usize),
}

impl Body<'_> {
    // How many bytes it has.
    pub(crate) fn length(self) -> usize {
        match self {
            Body::Hex(text) => text.len() / 2,
            Body::Room(length) => length,
        }
    }

    // Fills in its bytes.
    fn fill(self, bytes: &mut [u8]) -> Result<(), Expected> {
        match self {
            Body::Hex(text) => read_hex(text, bytes).map_err(|_| Expected(Form::Message)),
            Body::Room(_) => Ok(()),
        }
    }
}

impl Request<'_> {
    // The answer to it, in memory for its body.
    pub(crate) fn answer(self, memory: &mut [u8]) -> Result<Answer, Fault> {
        self.body.fill(memory)?;
        Ok(perform(self.calculation, memory)?)
    }
}

// Why a line cannot be answered.
#[derive(Clone, Copy, PartialEq, Eq, Debug, Error)]
pub enum Fault {
    #[error("no such calculation")]
    UnknownName,
    #[error("{0}")]
    Field(#[from] Expected),
    #[error("more fields than it takes")]
    MoreFields,
    #[error("{0}")]
    Refused(#[from] Refusal),
}

fn terminal_key(words: &mut Words<'_>) -> Result<TerminalKey, Expected> {
    Ok(TerminalKey {
        esn: words.field(Form::Esn)?,
        key: words.field(Form::Secret)?,
    })
}

fn renewal(words: &mut Words<'_>) -> Result<Renewal, Expected> {
    Ok(Renewal {
        esn: words.field(Form::Esn)?,
        key: words.field(Form::Secret)?,
        rand_ssd: words.field(Form::RandSsd)?,
    })
}

fn challenge(words: &mut Words<'_>) -> Result<Challenge, Expected> {
    Ok(Challenge {
        esn: words.field(Form::Esn)?,
        secret: words.field(Form::Secret)?,
        rand: words.field(Form::Rand)?,
        auth_data: words.field(Form::AuthData)?,
    })
}

// What a run of CAVE leaves.
fn run_end(words: &mut Words<'_>) -> Result<RunEnd, Expected> {
    Ok(RunEnd {
        lfsr: words.field(Form::Lfsr)?,
        offset1: words.field(Form::Offset)?,
        offset2: words.field(Form::Offset)?,
    })
}

// What a call opens with, and then what the opening signature left.
fn opening(words: &mut Words<'_>) -> Result<OpeningRecord, Expected> {
    Ok(OpeningRecord {
        esn: words.field(Form::Esn)?,
        ssd_b: words.field(Form::Secret)?,
        rand: words.field(Form::Rand)?,
        auth_data: words.field(Form::AuthData)?,
        left: run_end(words)?,
    })
}

fn call(words: &mut Words<'_>) -> Result<CallInputs, Expected> {
    Ok(CallInputs {
        ssd_b: words.field(Form::Secret)?,
        rand: words.field(Form::Rand)?,
    })
}

fn mask(words: &mut Words<'_>) -> Result<MaskInputs, Expected> {
    Ok(MaskInputs {
        call: call(words)?,
        hook: words.field(Form::Hook)?,
    })
}

// The key digits of an A-key, at most 20.
fn digits(words: &mut Words<'_>) -> Result<u64, Expected> {
    let expected = Expected(Form::KeyDigits);
    let digits = text_of(words.next_word().ok_or(expected)?);
    if digits.len() > 20 {
        return Err(expected);
    }
    read_key(digits).map_err(|_| expected)
}

// A message, of which the digits are read later.
fn message<'a>(words: &mut Words<'a>) -> Result<Body<'a>, Expected> {
    let word = words.next_word().ok_or(Expected(Form::Message))?;
    Ok(Body::Hex(text_of(word)))
}

// Room for a mask.
fn room<'a>(words: &mut Words<'_>) -> Result<Body<'a>, Expected> {
    let ShortNumber(length) = words.field(Form::Length)?;
    if length <= 0xffff {
        Ok(Body::Room(length as usize))
    } else {
        Err(Expected(Form::Length))
    }
}

// The calculation of this name, with its fields and then its body; most have none.
fn read_request<'a>(name: &[u8], words: &mut Words<'a>) -> Result<Request<'a>, Fault> {
    let mut body = Body::Room(0);
    let calculation = match name {
        b"lfsr" => Calculation::Lfsr(words.field(Form::Lfsr)?),
        b"akey" => Calculation::Digits(digits(words)?),
        b"akey_check" => Calculation::Check(terminal_key(words)?),
        b"ssd" => Calculation::NewSsd(renewal(words)?),
        b"sign" => Calculation::Sign(challenge(words)?),
        b"signleft" => Calculation::SignLeft(challenge(words)?),
        b"cmeakey" => Calculation::CmeaKey(opening(words)?),
        b"vpm" => Calculation::VoiceMask(opening(words)?),
        b"cmea" => {
            let key = words.field(Form::Secret)?;
            body = message(words)?;
            Calculation::Cmea(key)
        }
        b"kstep" => Calculation::KStep(words.field(Form::K)?),
        b"datakey" => Calculation::DataKey(call(words)?),
        b"mask" => {
            let inputs = mask(words)?;
            body = room(words)?;
            Calculation::Mask(inputs)
        }
        b"selftest" => Calculation::SelfTest,
        _ => return Err(Fault::UnknownName),
    };
    Ok(Request { calculation, body })
}

// What a line asks for.
pub(crate) fn read_line(line: &[u8]) -> Result<Request<'_>, Fault> {
    let mut words = Words::new(line);
    let name = words.next_word().ok_or(Fault::UnknownName)?;
    let request = read_request(name, &mut words)?;
    match words.next_word() {
        None => Ok(request),
        Some(_) => Err(Fault::MoreFields),
    }
}
