// The worked examples, as a known-answer test of the running code and as one proved list. Public: `self_test`.
#![tactic(auto)]

ghost use Rattle.std.specs.Prelude.{◌≡◌, ◌↔◌, Ok, true, length, replicate, IsTrue};
ghost use Rattle.examples.specs.Examples.{WorkedExamples};
ghost use Rattle.entry.specs.Entry.{digits_read};
ghost use Rattle.cmea.specs.Ciphering.{ciphered};

use cave::lfsr::lfsr_cycle;
use cmea::key::CmeaKey;
use entry::read_key;
use oryx::steps::{step_a, step_b, step_k};

// Whether key digits give this key.
fn gives(digits: &[u8], key: u64) -> bool
    ensures { IsTrue result ↔ (digits_read digits.now (length digits.now) ≡ Ok key) }
{
    read_key(digits) == Ok(key)
}

// Whether the key digits agree.
fn keys_agree() -> bool
    ensures { result ≡ true }
{
    gives(b"12345678901234567890", 0xab54_a98c_eb1f_0ad2)
        & gives(b"18446744073709551615", 0xffff_ffff_ffff_ffff)
        & gives(b"18446744073709551616", 0)
        & gives(b"99999999999999999999", 0x6bc7_5e2d_630f_ffff)
}

// Whether the LFSR cycles agree.
fn cycles_agree() -> bool
    ensures { result ≡ true }
{
    (lfsr_cycle(0x0000_0001) == 0x8000_0000)
        & (lfsr_cycle(0x0040_0000) == 0x8020_0000)
        & (lfsr_cycle(0x0000_0003) == 0x0000_0001)
}

// Whether the steps of the ORYX registers agree.
fn steps_agree() -> bool
    ensures { result ≡ true }
{
    (step_k(0) == 0x18a0_ac93)
        & (step_k(1) == 0xc672_b008)
        & (step_a(0x8000_0000, 0x8000_0000) == 0x04c1_1db7)
        & (step_a(0x7fff_ffff, 0x8000_0000) == 0x0fc2_2f87)
        & (step_b(0x8000_0000) == 0x8031_804b)
        & (step_b(0x8031_804b) == 0x8052_80dd)
}

// Whether two bytes, ciphered under the CMEA key of zeros, become these.
fn become_these(message: [u8; 2], these: [u8; 2]) -> bool
    ensures { IsTrue result ↔ (ciphered (replicate 8 0) message ≡ these) }
{
    let mut bytes = message;
    CmeaKey::new([0; 8]).cipher(&mut bytes) == Ok(()) && bytes == these
}

// Runs every worked example, and answers whether the code agrees with all of them.
#[tactic(auto, unfolding(entry::specs::Digits::first_bad, cave::specs::Table::table, cmea::specs::Substitution::tbox, cmea::specs::Passes::first_pass, cmea::specs::Passes::second_pass, cmea::specs::Passes::third_pass, cmea::specs::Ciphering::image))]
pub fn self_test() -> bool
    ensures passes { result ≡ true }
    ensures examples { WorkedExamples }
{
    let ciphers = become_these([0x00, 0x00], [0xf1, 0xaf])
        & become_these([0xf1, 0xaf], [0x00, 0x00]);
    keys_agree() & cycles_agree() & steps_agree() & ciphers
}
