// The cipher kinds of a call. Public: `CallCipher`, the cipher over what a kind derives from an opening record, with `new` and its
// `Cipher`; the trait `CallKey`, which says what that is; the two kinds, `CmeaCipher` and `OryxCipher`; and `cmea_there_and_back`
// and `oryx_there_and_back`, which encipher a body and decipher it again.
#![tactic(auto)]

pub mod call_cipher;
pub mod call_key;
pub mod cmea_cipher;
pub mod oryx_cipher;
#[cfg(test)]
mod tests;
