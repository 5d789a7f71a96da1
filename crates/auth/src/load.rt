// What the loadings of CAVE have in common.
ghost use Rattle.std.specs.Prelude.{◌≡◌, ◌/◌, ◌%◌, ◌^◌};
ghost use Rattle.auth.specs.Loading.{loading, if_zero, blended};

use cave::state::CaveState;

// AAV, the version of the authentication algorithm.
const AAV: u8 = 0xc7;

// R0 to R7 are a secret, R8 is AAV, R9 to R11 are three bytes of data and R12 to R15 the ESN; both offsets are 128.
#[tactic(auto, unfolding(crate::specs::Loading::loading))]
pub(crate) fn load_state(lfsr: u32, secret: u64, three: [u8; 3], esn: u32) -> CaveState
    ensures { result ≡ loading lfsr secret three esn }
{
    // AAV is left in R8 alone.
    let mut registers = [AAV; 16];
    registers[..8].copy_from_slice(&secret.to_be_bytes());
    registers[9..12].copy_from_slice(&three);
    registers[12..].copy_from_slice(&esn.to_be_bytes());
    CaveState {
        registers,
        lfsr,
        offset1: 128,
        offset2: 128,
    }
}

// x, or where that is zero the other.
pub(crate) fn or_if_zero(x: u32, other: u32) -> u32
    ensures { result ≡ if_zero x other }
{
    if x == 0 { other } else { x }
}

// The upper and the lower 32 bits.
pub(crate) fn halves(x: u64) -> (u32, u32)
    ensures upper { result.0 ≡ x / 2 ^ 32 }
    ensures lower { result.1 ≡ x % 2 ^ 32 }
{
    ((x >> 32) as u32, (x % 0x1_0000_0000) as u32)
}

// x XOR both halves of a secret.
pub(crate) fn blend(x: u32, secret: u64) -> u32
    ensures { result ≡ blended x secret }
{
    let (upper, lower) = halves(secret);
    x ^ upper ^ lower
}
