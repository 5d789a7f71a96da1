// What every cipher of a call does, told by its meaning: the opening record that it was keyed with, if any, and its kind.
ghost use Rattle.std.specs.Prelude.{◌≡◌, length, is_some, Some, Option};
ghost use Rattle.auth.specs.declared.types.OpeningRecord.{OpeningRecord as Opening};
ghost use Rattle.cipher.specs.Kind.{Kind, Lawful, sees, answers, ciphered};

use crate::fault::CipherFault;
use auth::types::OpeningRecord;

pub trait Cipher {
    // the record that it was keyed with, or none
    ghost keyed: { Self → Option Opening };

    // its least length, its map, and what it tells of a length that it refuses
    ghost kind: { Self → Kind };

    // Keys the cipher, in place of what it was keyed with.
    fn key(&mut self, opening: OpeningRecord)
        ensures keyed { keyed self.new ≡ Some opening }
        ensures same_kind { kind self.new ≡ kind self.old };

    // Whether it was keyed.
    fn is_keyed(&self) -> bool
        ensures { result ≡ is_some (keyed self.now) };

    // Enciphers or deciphers the body of a frame in place; the two are the same. A refused body stays as it was. The HOOK stands
    // beside the body and not with it, since the body is lent to be changed.
    fn cipher(&self, hook: u32, body: &mut [u8]) -> Result<(), CipherFault>
        ensures answer { result ≡ answers (kind self.now) (keyed self.now) (length body.old) }
        ensures after { body.new ≡ ciphered (kind self.now) (keyed self.now) hook body.old };

    // the map keeps the length of a body and undoes itself
    ghost lawful: { (x : Self) → Lawful (kind x) };
}

// The most bytes that a body has.
const MOST: usize = 64;

// The test of a cipher that sees the length of a body itself: from `least` to 64 bytes.
pub fn check_length(length: usize, least: usize) -> Result<(), CipherFault>
    ensures { result ≡ sees least length }
{
    if (least..=MOST).contains(&length) {
        Ok(())
    } else {
        Err(CipherFault::WrongLength { length, layers: 0 })
    }
}
