// The cipher of every kind that derives from the opening record, once, all that it ciphers with.
ghost use Rattle.std.specs.Prelude.{◌≡◌, None, ⊤};
ghost use Rattle.std.specs.Option.{option_map};
ghost use Rattle.kinds.specs.Kinds.{kind_of};

use crate::call_key::CallKey;
use auth::types::OpeningRecord;
use cipher::fault::CipherFault;
use cipher::kind::{Cipher, check_length};
use std::alloc::AllocError;

// What a keyed one holds: the opening record, and what was derived from it once, so that ciphering derives nothing again.
struct Held<K: CallKey> {
    opening: OpeningRecord,
    key: K,
    ghost derived: { K.material key ≡ K.material_of opening },
}

// By hand: a derive on a generic type with a ghost field is refused.
impl<K: CallKey> Clone for Held<K> {
    ghost is_clone = { λ x y. y ≡ x };

    ghost is_infallible = { λ _. ⊤ };

    fn clone(&self) -> Result<Self, AllocError> {
        Ok(*self)
    }
}

impl<K: CallKey> Copy for Held<K> {}

#[derive(Clone, Copy)]
pub struct CallCipher<K: CallKey> {
    held: Option<Held<K>>,
}

impl<K: CallKey> CallCipher<K> {
    // A cipher that is not keyed.
    pub fn new() -> Self
        ensures { ⟦<Self as Cipher>⟧.keyed result ≡ None }
    {
        CallCipher { held: None }
    }
}

impl<K: CallKey> Cipher for CallCipher<K> {
    ghost keyed = { λ c. option_map (λ held. held.opening) c.held };

    ghost kind = { λ c. kind_of K.LEAST K.image };

    ghost lawful = { λ c. K.lawful };

    fn key(&mut self, opening: OpeningRecord) {
        let key = K::derive(opening);
        self.held = Some(Held { opening, key });
    }

    fn is_keyed(&self) -> bool {
        self.held.is_some()
    }

    fn cipher(&self, hook: u32, body: &mut [u8]) -> Result<(), CipherFault> {
        let Some(held) = &self.held else {
            return Err(CipherFault::NotKeyed);
        };
        check_length(body.len(), K::LEAST)?;
        held.key.apply(hook, body);
        Ok(())
    }
}
