// There and back under any cipher.
ghost use Rattle.std.specs.Prelude.{◌≡◌, length};
ghost use Rattle.cipher.specs.Kind.{answers};
ghost use Rattle.cipher.specs.Trip.{Returns};
ghost use Rattle.cipher.specs.Head.{headed};
ghost use Rattle.cipher.specs.declared.head.ClearHead.{ClearHead as Headed};

use crate::fault::CipherFault;
use crate::head::ClearHead;
use crate::kind::Cipher;

// Enciphers a body and deciphers it again. Under every cipher that gives the body back, and a refused body stays as it was too.
#[tactic(auto, using(crate::proofs::Returning::ciphered_twice))]
pub fn there_and_back<C: Cipher>(cipher: &C, hook: u32, body: &mut [u8]) -> Result<(), CipherFault>
    ensures answer { result ≡ answers (C.Cipher.kind cipher.now) (C.Cipher.keyed cipher.now) (length body.old) }
    ensures back { body.new ≡ body.old }
    ensures always { Returns C.Cipher.kind }
{
    cipher.cipher(hook, body)?;
    cipher.cipher(hook, body)
}

// The same behind a clear head, over any cipher. Its clauses say of which kind a head is, which no other contract does.
pub fn headed_there_and_back<C: Cipher>(
    cipher: &ClearHead<C>,
    hook: u32,
    body: &mut [u8],
) -> Result<(), CipherFault>
    ensures answer { result ≡ answers (headed cipher.now.head (C.Cipher.kind cipher.now.below)) (C.Cipher.keyed cipher.now.below) (length body.old) }
    ensures back { body.new ≡ body.old }
    ensures always { Returns (λ (s : Headed C). headed s.head (C.Cipher.kind s.below)) }
{
    there_and_back(cipher, hook, body)
}
