// Keying a terminal: its A-key from the typed digits, SSD from the A-key, and the first call's signature and keys from SSD.
ghost use Rattle.std.specs.Prelude.{◌≡◌};
ghost use Rattle.entry.specs.Entry.{entry_read};
ghost use Rattle.keying.specs.Keying.{keyed, keyed_with};

use crate::request::Request;
use auth::keys::call_keys;
use auth::types::{AuthData, CallKeys, Challenge, OpeningRecord, RandSsd, Renewal, Ssd};
use auth::uses::{new_ssd, sign};
use entry::read_entry;
use refusal::Refusal;

// The numbers that the network draws: RANDSSD, and RAND and AUTH_DATA of the call.
#[derive(Clone, Copy)]
pub struct Numbers {
    pub rand_ssd: RandSsd,
    pub rand: u32,
    pub auth_data: AuthData,
}

// What a keyed terminal holds.
#[derive(Clone, Copy)]
pub struct Keyed {
    pub key: u64,
    pub ssd: Ssd,
    pub signature: u32,
    pub call: CallKeys,
}

fn derive_keys(esn: u32, numbers: Numbers, key: u64) -> Keyed
    ensures { result ≡ keyed_with esn numbers key }
{
    let ssd = new_ssd(Renewal {
        esn,
        key,
        rand_ssd: numbers.rand_ssd,
    });
    let signed = sign(Challenge {
        esn,
        secret: ssd.a,
        rand: numbers.rand,
        auth_data: numbers.auth_data,
    });
    let call = call_keys(OpeningRecord {
        ssd_b: ssd.b,
        esn,
        rand: numbers.rand,
        auth_data: numbers.auth_data,
        left: signed.left,
    });
    Keyed {
        key,
        ssd,
        signature: signed.signature,
        call,
    }
}

// The whole keying.
pub(crate) fn key_terminal(request: &Request<'_>) -> Result<Keyed, Refusal>
    ensures { result ≡ keyed request.now.esn request.now.numbers (entry_read request.now.esn request.now.typed.now) }
{
    let key = read_entry(request.esn, request.typed)?;
    Ok(derive_keys(request.esn, request.numbers, key))
}
