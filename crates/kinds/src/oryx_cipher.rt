// The ORYX kind: bodies of up to 64 bytes, each under the mask of its HOOK.
ghost use Rattle.std.specs.Prelude.{◌≡◌, length};
ghost use Rattle.cipher.specs.Kind.{answers};
ghost use Rattle.cipher.specs.Trip.{Returns};
ghost use Rattle.oryx.specs.declared.call.OryxCall.{OryxCall as Key};
ghost use Rattle.oryx.specs.Frames.{call_of, masked};
ghost use Rattle.kinds.specs.declared.call_cipher.CallCipher.{CallCipher as CipherOf};
ghost use Rattle.kinds.specs.Kinds.{call_material, oryx_kind};
ghost use Rattle.kinds.specs.Laws.{oryx_effect, oryx_lawful};

use crate::call_cipher::CallCipher;
use crate::call_key::CallKey;
use auth::types::OpeningRecord;
use cipher::fault::CipherFault;
use cipher::kind::Cipher;
use cipher::trip::there_and_back;
use oryx::call::OryxCall;

pub type OryxCipher = CallCipher<OryxCall>;

impl CallKey for OryxCall {
    ghost LEAST = { oryx_kind.least };

    const LEAST: usize = 0;

    ghost image = { oryx_kind.image };

    ghost effect = { masked };

    ghost material = { call_material };

    ghost material_of = { λ o. call_material (call_of o.ssd_b o.rand) };

    ghost ciphers_as_kind = { oryx_effect };

    ghost lawful = { oryx_lawful };

    fn derive(opening: OpeningRecord) -> Self {
        OryxCall::new(opening.ssd_b, opening.rand)
    }

    fn apply(&self, hook: u32, body: &mut [u8]) {
        self.cipher(hook, body);
    }
}

// Enciphers a body under ORYX and deciphers it again. Its clauses say of which kind such a cipher is, which no other contract does.
// A clause writes the type as `CipherOf Key`, with the members of the key.
pub fn oryx_there_and_back(
    cipher: &OryxCipher,
    hook: u32,
    body: &mut [u8],
) -> Result<(), CipherFault>
    ensures answer { result ≡ answers oryx_kind (⟦<OryxCipher as Cipher>⟧.keyed cipher.now) (length body.old) }
    ensures back { body.new ≡ body.old }
    ensures always { Returns (λ (c : CipherOf Key ⟦<OryxCall as CallKey>⟧). oryx_kind) }
{
    there_and_back(cipher, hook, body)
}
