// The uses of CAVE by TR45.0.A: the check of an A-key, new shared secret data (SSD), the authentication signature, and the
// CMEA key and voice privacy mask of a call. Public, in `uses`: `akey_check`, `new_ssd`, `sign`; in `keys`: `cmea_key` and
// `call_keys`; in `types`: what they take and give.
#![tactic(auto)]

pub mod keys;
mod load;
pub mod types;
pub mod uses;
