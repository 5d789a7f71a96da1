// Why ciphering declines. Apart from the library's refusals: in their table there is no case yet for a cipher that was not keyed.
ghost use Rattle.std.specs.Prelude.{◌≡◌};

use thiserror::Error;

#[derive(Clone, Copy, PartialEq, Eq, Debug, Error)]
pub enum CipherFault {
    #[error("the cipher was not keyed")]
    NotKeyed,
    // a body of a length that the kind does not take, with how many layers lie above the one that saw this length
    #[error("a body of {length} bytes, seen {layers} layers below")]
    WrongLength { length: usize, layers: u32 },
}

impl CipherFault {
    ghost use Rattle.cipher.specs.Head.{raised};

    // The fault as the layer above reports it: it has one layer more above it, counted as far as 32 bits go.
    pub fn one_layer_up(self) -> Self
        ensures { result ≡ raised self }
    {
        match self {
            CipherFault::NotKeyed => self,
            CipherFault::WrongLength { length, layers } => CipherFault::WrongLength {
                length,
                layers: layers.saturating_add(1),
            },
        }
    }
}
