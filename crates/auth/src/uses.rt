// The three uses of CAVE that run eight rounds and read one answer off.
ghost use Rattle.std.specs.Prelude.{◌≡◌};
ghost use Rattle.cave.specs.Law.{AnswersBy};
ghost use Rattle.cave.specs.Rounds.{after_rounds};
ghost use Rattle.auth.specs.Loading.{akey_loading, ssd_loading, signature_loading};
ghost use Rattle.auth.specs.Reading.{eighteen, ssd_of, signed_of, Reads18};
ghost use Rattle.auth.specs.Uses.{akey_check_of, new_ssd_of, signature_of};

use crate::load::{blend, halves, load_state, or_if_zero};
use crate::types::{Challenge, Renewal, Signed, Ssd, TerminalKey};
use cave::state::CaveState;
use cave::uses::{CaveUse, run};

// The 18 bits that a check and a signature read off.
fn read_18(last: CaveState) -> u32
    ensures { result ≡ eighteen last }
{
    let r = last.registers;
    u32::from_be_bytes([0, r[0] ^ r[13], r[1] ^ r[14], r[2] ^ r[15]]) % 0x4_0000
}

pub struct AKeyCheck;

impl CaveUse for AKeyCheck {
    type Input = TerminalKey;

    type Output = u32;

    ghost loading = { akey_loading };

    ghost reading = { eighteen };

    fn load(input: TerminalKey) -> CaveState {
        let k = input.key.to_be_bytes();
        let (upper, _) = halves(input.key);
        load_state(
            or_if_zero(upper, input.esn),
            input.key,
            [k[5], k[6], k[7]],
            input.esn,
        )
    }

    fn read(last: CaveState) -> u32 {
        read_18(last)
    }
}

pub struct SsdGeneration;

impl CaveUse for SsdGeneration {
    type Input = Renewal;

    type Output = Ssd;

    ghost loading = { ssd_loading };

    ghost reading = { ssd_of };

    #[tactic(auto, unfolding(cave::specs::Bytes::wide))]
    fn load(input: Renewal) -> CaveState {
        let r = input.rand_ssd.0;
        let lower = u32::from_be_bytes([r[3], r[4], r[5], r[6]]);
        let lfsr = or_if_zero(blend(lower, input.key), lower);
        load_state(lfsr, input.key, [r[0], r[1], r[2]], input.esn)
    }

    #[tactic(auto, unfolding(cave::specs::Bytes::wide))]
    fn read(last: CaveState) -> Ssd {
        let whole = u128::from_be_bytes(last.registers);
        Ssd {
            a: (whole >> 64) as u64,
            b: (whole % 0x1_0000_0000_0000_0000) as u64,
        }
    }
}

pub struct AuthSignature;

impl CaveUse for AuthSignature {
    type Input = Challenge;

    type Output = Signed;

    ghost loading = { signature_loading };

    ghost reading = { signed_of };

    fn load(input: Challenge) -> CaveState {
        let lfsr = or_if_zero(blend(input.rand, input.secret), input.rand);
        load_state(lfsr, input.secret, input.auth_data.0, input.esn)
    }

    fn read(last: CaveState) -> Signed {
        Signed {
            signature: read_18(last),
            left: last.into(),
        }
    }
}

// Each of these three promises by itself that its answer is read off a whole run: a caller sees no more than the call.

// The check of an A-key: 18 bits.
#[tactic(auto, using(crate::proofs::Crossed::crossed_below))]
pub fn akey_check(of: TerminalKey) -> u32
    ensures result { result ≡ akey_check_of of }
    ensures lawful { AnswersBy (akey_loading of) eighteen result }
    ensures bits { Reads18 (after_rounds 8 (akey_loading of)) result }
{
    run::<AKeyCheck>(of)
}

// New shared secret data.
pub fn new_ssd(of: Renewal) -> Ssd
    ensures result { result ≡ new_ssd_of of }
    ensures lawful { AnswersBy (ssd_loading of) ssd_of result }
{
    run::<SsdGeneration>(of)
}

// The authentication signature of a challenge, with what its run leaves.
#[tactic(auto, using(crate::proofs::Crossed::crossed_below))]
pub fn sign(of: Challenge) -> Signed
    ensures result { result ≡ signature_of of }
    ensures lawful { AnswersBy (signature_loading of) signed_of result }
    ensures bits { Reads18 (after_rounds 8 (signature_loading of)) result.signature }
{
    run::<AuthSignature>(of)
}
