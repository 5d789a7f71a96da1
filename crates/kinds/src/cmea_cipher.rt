// The CMEA kind: bodies of 2 to 64 bytes, under the CMEA key of the call. It does not look at the HOOK.
ghost use Rattle.std.specs.Prelude.{◌≡◌, length};
ghost use Rattle.auth.specs.Keys.{cmea_key_of};
ghost use Rattle.cipher.specs.Kind.{answers};
ghost use Rattle.cipher.specs.Trip.{Returns};
ghost use Rattle.cmea.specs.declared.key.CmeaKey.{CmeaKey as Key};
ghost use Rattle.kinds.specs.declared.call_cipher.CallCipher.{CallCipher as CipherOf};
ghost use Rattle.cmea.specs.Ciphering.{image as cmea_image};
ghost use Rattle.kinds.specs.Kinds.{cmea_kind};
ghost use Rattle.kinds.specs.Laws.{cmea_effect, cmea_lawful};

use crate::call_cipher::CallCipher;
use crate::call_key::CallKey;
use auth::keys::cmea_key;
use auth::types::OpeningRecord;
use cipher::fault::CipherFault;
use cipher::kind::Cipher;
use cipher::trip::there_and_back;
use cmea::key::CmeaKey;

pub type CmeaCipher = CallCipher<CmeaKey>;

impl CallKey for CmeaKey {
    ghost LEAST = { cmea_kind.least };

    const LEAST: usize = 2;

    ghost image = { cmea_kind.image };

    ghost effect = { λ key hook xs. cmea_image key.bytes xs };

    ghost material = { λ key. key.bytes };

    ghost material_of = { cmea_key_of };

    ghost ciphers_as_kind = { λ key o same. cmea_effect key.bytes o same };

    ghost lawful = { cmea_lawful };

    fn derive(opening: OpeningRecord) -> Self {
        CmeaKey::new(cmea_key(opening))
    }

    fn apply(&self, _hook: u32, body: &mut [u8]) {
        // CMEA refuses only a body under LEAST, and leaves it
        let _ = self.cipher(body);
    }
}

// Enciphers a body under CMEA and deciphers it again. Its clauses say of which kind such a cipher is, which no other contract does.
// A clause writes the type as `CipherOf Key`, with the members of the key.
pub fn cmea_there_and_back(
    cipher: &CmeaCipher,
    hook: u32,
    body: &mut [u8],
) -> Result<(), CipherFault>
    ensures answer { result ≡ answers cmea_kind (⟦<CmeaCipher as Cipher>⟧.keyed cipher.now) (length body.old) }
    ensures back { body.new ≡ body.old }
    ensures always { Returns (λ (c : CipherOf Key ⟦<CmeaKey as CallKey>⟧). cmea_kind) }
{
    there_and_back(cipher, hook, body)
}
