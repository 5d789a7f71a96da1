// A clear head over any cipher: the first bytes of a body stay as they are, and the rest is handed on to the cipher below. Heads can
// be stacked.
ghost use Rattle.std.specs.Prelude.{◌≡◌, min};
ghost use Rattle.cipher.specs.Head.{headed};
ghost use Rattle.cipher.specs.Laws.{headed_lawful};

use crate::fault::CipherFault;
use crate::kind::{Cipher, check_length};
use auth::types::OpeningRecord;

// The most bytes that a head has.
const MOST_HEAD: u8 = 8;

// The fields are private, so that no head is longer than 8; clauses name what `new` was given.
#[derive(Clone, Copy, Drop)]
pub struct ClearHead<C> {
    head: u8,
    below: C,
}

impl<C: Cipher> ClearHead<C> {
    // A head of so many bytes, or of 8 where that is more.
    pub fn new(head: u8, below: C) -> Self
        ensures head { result.head ≡ min head 8 }
        ensures below { result.below ≡ below }
    {
        ClearHead {
            head: head.min(MOST_HEAD),
            below,
        }
    }
}

impl<C: Cipher> Cipher for ClearHead<C> {
    ghost keyed = { λ s. C.Cipher.keyed s.below };

    ghost kind = { λ s. headed s.head (C.Cipher.kind s.below) };

    ghost lawful = { λ x. headed_lawful x.head (C.Cipher.kind x.below) (C.Cipher.lawful x.below) };

    fn key(&mut self, opening: OpeningRecord) {
        self.below.key(opening);
    }

    fn is_keyed(&self) -> bool {
        self.below.is_keyed()
    }

    fn cipher(&self, hook: u32, body: &mut [u8]) -> Result<(), CipherFault> {
        // First, as everywhere: only then is the length looked at.
        if !self.below.is_keyed() {
            return Err(CipherFault::NotKeyed);
        }
        let head = self.head as usize;
        check_length(body.len(), head)?;
        self.below
            .cipher(hook, &mut body[head..])
            .map_err(CipherFault::one_layer_up)?;
        Ok(())
    }
}
