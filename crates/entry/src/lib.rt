// Reading what a fitter types into a terminal: the digits of its A-key, and behind them six check digits. Public: `read_entry`
// (a whole entry, with its check) and `read_key` (key digits alone).
#![tactic(auto)]

ghost use Rattle.std.specs.Prelude.{◌≡◌, [], ◌∷◌, length};
ghost use Rattle.entry.specs.Digits.{value_of, decimal};
ghost use Rattle.entry.specs.Entry.{digits_read, entry_read, Says};

use auth::types::TerminalKey;
use auth::uses::akey_check;
use refusal::Refusal;

// The number of the first `key_count` bytes modulo 2^64, if every byte is a digit.
#[tactic(auto, using(crate::proofs::Scan::scanning))]
fn read_digits(bytes: &[u8], key_count: usize) -> Result<u64, Refusal>
    ensures { result ≡ digits_read bytes.now key_count }
{
    let mut key: u64 = 0;
    // Each digit in turn, with its index, which a refusal tells.
    for (index, byte) in bytes.iter().enumerate() {
        if !byte.is_ascii_digit() {
            return Err(Refusal::NotADigit { index });
        }
        if index < key_count {
            key = key.wrapping_mul(10).wrapping_add(digit(*byte) as u64);
        }
    }
    Ok(key)
}

// The value of a digit, and 0 for what is below one. No `Option`: what it gives is used only once all bytes are known to be digits.
fn digit(byte: u8) -> u32
    ensures { result ≡ value_of byte }
{
    byte.saturating_sub(b'0') as u32
}

// The number that six check digits write, named one by one as the pattern below gives them.
fn check_number(a: u8, b: u8, c: u8, d: u8, e: u8, f: u8) -> u32
    ensures { result ≡ decimal (a ∷ b ∷ c ∷ d ∷ e ∷ f ∷ []) }
{
    ((((digit(a) * 10 + digit(b)) * 10 + digit(c)) * 10 + digit(d)) * 10 + digit(e)) * 10 + digit(f)
}

// Key digits alone: their number modulo 2^64.
pub fn read_key(digits: &[u8]) -> Result<u64, Refusal>
    ensures { result ≡ digits_read digits.now (length digits.now) }
{
    read_digits(digits, digits.len())
}

// A whole entry of 6 to 26 digits: the A-key, if the last six digits are its check for this ESN.
pub fn read_entry(esn: u32, typed: &[u8]) -> Result<u64, Refusal>
    ensures result { result ≡ entry_read esn typed.now }
    ensures says { Says esn typed.now result }
{
    let count = typed.len();
    if count > 26 {
        return Err(Refusal::WrongCount { count });
    }
    let [head @ .., a, b, c, d, e, f] = typed else {
        return Err(Refusal::WrongCount { count });
    };
    let key = read_digits(typed, head.len())?;
    if check_number(*a, *b, *c, *d, *e, *f) != akey_check(TerminalKey { esn, key }) {
        return Err(Refusal::CheckDiffers);
    }
    Ok(key)
}
