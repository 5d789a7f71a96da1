// Ciphers of a call over one meaning, so that what is built on them is proved once for every kind. Public: the trait `Cipher`; why
// ciphering declines (`CipherFault`, with `one_layer_up`, as the layer above reports it, and its text by `Display`);
// `check_length`; `ClearHead`, which leaves the first bytes of a body clear over any cipher; and `there_and_back`, which enciphers
// and deciphers under any cipher, with `headed_there_and_back` behind a head.
#![tactic(auto)]

pub mod fault;
pub mod head;
pub mod kind;
pub mod trip;
