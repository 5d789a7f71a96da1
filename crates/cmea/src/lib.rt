// CMEA, the message encryption of TR45.0.A: a message of two bytes or more is replaced in place, under a key of eight bytes, by
// three passes that together undo themselves. Public, on `CmeaKey`: `new` (a key with the table of its substitution), `cipher`.
#![tactic(auto)]

pub mod key;
