// The calculations that the calculator `tr45` offers, as data, and their answers with their text. Some work on a body, bytes that
// are lent to them: a message to be ciphered, or room for a mask. Public: `perform`, and the text of an answer by `Display`.
#![tactic(auto)]

ghost use Rattle.std.specs.Prelude.{◌≡◌};
ghost use Rattle.calculations.specs.Answers.{answer_of, body_after};

use auth::keys::{call_keys, cmea_key};
use auth::types::{Challenge, OpeningRecord, Renewal, Signed, Ssd, TerminalKey};
use auth::uses::{akey_check, new_ssd, sign};
use cave::lfsr::lfsr_cycle;
use cmea::key::CmeaKey;
use examples::self_test;
use hex_field::Hex;
use oryx::call::OryxCall;
use oryx::steps::step_k;
use refusal::Refusal;
use std::fmt;

// What DataKey and table of a call are made of.
#[derive(Clone, Copy, PartialEq, Eq, Debug)]
pub struct CallInputs {
    pub ssd_b: u64,
    pub rand: u32,
}

// What the mask of a frame is made of: that of its call, and its HOOK.
#[derive(Clone, Copy, PartialEq, Eq, Debug)]
pub struct MaskInputs {
    pub call: CallInputs,
    pub hook: u32,
}

#[derive(Clone, Copy, PartialEq, Eq, Debug)]
pub enum Calculation {
    Lfsr(u32),
    // key digits that were read
    Digits(u64),
    Check(TerminalKey),
    NewSsd(Renewal),
    Sign(Challenge),
    SignLeft(Challenge),
    CmeaKey(OpeningRecord),
    VoiceMask(OpeningRecord),
    // the body, ciphered under a CMEA key
    Cmea(u64),
    KStep(u32),
    DataKey(CallInputs),
    // the mask of a frame, into the body
    Mask(MaskInputs),
    SelfTest,
}

#[derive(Clone, Copy, PartialEq, Eq, Debug)]
pub enum Answer {
    Word(u32),
    Key(u64),
    EighteenBits(u32),
    Ssd(Ssd),
    Signed(Signed),
    CmeaKey([u8; 8]),
    VoiceMask([u8; 65]),
    Call(OryxCall),
    // the body holds it, memory that the caller lends
    InBody,
    Passed(bool),
}

// The answer to a calculation, and what it makes of the body. A `match` and no closures: a calculation is data, so that one
// definition can name the answer to each.
pub fn perform(calculation: Calculation, body: &mut [u8]) -> Result<Answer, Refusal>
    ensures answer { result ≡ answer_of calculation body.old }
    ensures body { body.new ≡ body_after calculation body.old }
{
    Ok(match calculation {
        Calculation::Lfsr(lfsr) => Answer::Word(lfsr_cycle(lfsr)),
        Calculation::Digits(key) => Answer::Key(key),
        Calculation::Check(of) => Answer::EighteenBits(akey_check(of)),
        Calculation::NewSsd(of) => Answer::Ssd(new_ssd(of)),
        Calculation::Sign(of) => Answer::EighteenBits(sign(of).signature),
        Calculation::SignLeft(of) => Answer::Signed(sign(of)),
        Calculation::CmeaKey(of) => Answer::CmeaKey(cmea_key(of)),
        Calculation::VoiceMask(of) => Answer::VoiceMask(call_keys(of).voice_mask),
        Calculation::Cmea(key) => {
            CmeaKey::new(key.to_be_bytes()).cipher(body)?;
            Answer::InBody
        }
        Calculation::KStep(k) => Answer::Word(step_k(k)),
        Calculation::DataKey(of) => Answer::Call(OryxCall::new(of.ssd_b, of.rand)),
        Calculation::Mask(of) => {
            OryxCall::new(of.call.ssd_b, of.call.rand).mask(of.hook, body);
            Answer::InBody
        }
        Calculation::SelfTest => Answer::Passed(self_test()),
    })
}

// An answer as it is printed, with the body that may hold it.
#[derive(Clone, Copy, PartialEq, Eq, Debug)]
pub struct Shown<'a> {
    pub answer: Answer,
    pub body: &'a [u8],
}

// Values of a fixed width in hex; a body too, and an empty one as `-`.
impl fmt::Display for Shown<'_> {
    fn fmt<W: fmt::Write>(&self, f: &mut fmt::Formatter<W>) -> fmt::Result {
        match &self.answer {
            Answer::Word(word) => write!(f, "{word:08X}"),
            Answer::Key(key) => write!(f, "{key:016X}"),
            Answer::EighteenBits(bits) => write!(f, "{bits:05X}"),
            Answer::Ssd(ssd) => write!(f, "{:016X} {:016X}", ssd.a, ssd.b),
            Answer::Signed(s) => write!(
                f,
                "{:05X} {:08X} {:02X} {:02X}",
                s.signature, s.left.lfsr, s.left.offset1, s.left.offset2
            ),
            Answer::CmeaKey(key) => write!(f, "{}", Hex(key)),
            Answer::VoiceMask(mask) => write!(f, "{}", Hex(mask)),
            Answer::Call(call) => write!(f, "{:08X} {}", call.data_key, Hex(&call.table)),
            Answer::InBody if self.body.is_empty() => write!(f, "-"),
            Answer::InBody => write!(f, "{}", Hex(self.body)),
            Answer::Passed(true) => write!(f, "ok"),
            Answer::Passed(false) => write!(f, "failed"),
        }
    }
}
