// Values that a word of a line writes in hex, the most significant digit first. There are impls of one shape, since the gate
// refuses an impl that a macro of this repository wrote.
ghost use Rattle.std.specs.Prelude.{◌≡◌, ℕ, ◌≤◌, [], List, length, refl, None, Option};
ghost use Rattle.std.specs.Option.{option_map};
ghost use Rattle.fields.specs.Fields.{number_read, auth_data_read, rand_ssd_read, padded, short_number_read};
ghost use Rattle.fields.specs.Laws.{no_number, no_auth_data, no_rand_ssd};

use auth::types::{AuthData, RandSsd};
use hex_field::read_array;

pub trait Field: Sized {
    // the value that a text writes, if it is a field of this type
    ghost value_of: { List ℕ → Option Self };

    fn read(text: &[u8]) -> Option<Self>
        ensures { result ≡ value_of text.now };

    // an empty text is no field
    ghost not_empty: { value_of [] ≡ None };
}

impl Field for u8 {
    ghost value_of = { λ bs. number_read bs 1 };

    ghost not_empty = { no_number 0 };

    #[tactic(auto, unfolding(cave::specs::Bytes::wide))]
    fn read(text: &[u8]) -> Option<u8> {
        Some(u8::from_be_bytes(read_array(text)?))
    }
}

impl Field for u32 {
    ghost value_of = { λ bs. number_read bs 4 };

    ghost not_empty = { no_number 3 };

    #[tactic(auto, unfolding(cave::specs::Bytes::wide))]
    fn read(text: &[u8]) -> Option<u32> {
        Some(u32::from_be_bytes(read_array(text)?))
    }
}

impl Field for u64 {
    ghost value_of = { λ bs. number_read bs 8 };

    ghost not_empty = { no_number 7 };

    #[tactic(auto, unfolding(cave::specs::Bytes::wide))]
    fn read(text: &[u8]) -> Option<u64> {
        Some(u64::from_be_bytes(read_array(text)?))
    }
}

impl Field for AuthData {
    ghost value_of = { auth_data_read };

    ghost not_empty = { no_auth_data };

    fn read(text: &[u8]) -> Option<AuthData> {
        Some(AuthData(read_array(text)?))
    }
}

impl Field for RandSsd {
    ghost value_of = { rand_ssd_read };

    ghost not_empty = { no_rand_ssd };

    fn read(text: &[u8]) -> Option<RandSsd> {
        Some(RandSsd(read_array(text)?))
    }
}

// A number of 32 bits that is written in 1 to 8 digits, with or without zeros in front.
#[derive(Clone, Copy, PartialEq, Eq, Debug)]
pub struct ShortNumber(pub u32);

// At most 8 digits, with zeros in front to make 8.
fn pad(text: &[u8]) -> [u8; 8]
    requires { length text.now ≤ 8 }
    ensures { result ≡ padded text.now }
{
    let mut eight = [b'0'; 8];
    eight[8 - text.len()..].copy_from_slice(text);
    eight
}

// The number of such a text.
fn read_short(text: &[u8]) -> Option<u32>
    ensures { result ≡ short_number_read text.now }
{
    if text.is_empty() || text.len() > 8 {
        return None;
    }
    u32::read(&pad(text))
}

impl Field for ShortNumber {
    ghost value_of = { λ bs. option_map (λ n. record { 0 = n }) (short_number_read bs) };

    ghost not_empty = { refl };

    fn read(text: &[u8]) -> Option<ShortNumber> {
        Some(ShortNumber(read_short(text)?))
    }
}
