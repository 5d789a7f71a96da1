// What the uses of CAVE take and give, each with the fields that the standard names for it; what two of them share stands in
// both, since a type between would be one name more to go through. Wide numbers stand most significant byte first.
ghost use Rattle.std.specs.Prelude.{◌≡◌};
ghost use Rattle.auth.specs.Reading.{run_end_of};

use cave::state::CaveState;

// AUTH_DATA: 24 bits of the message that a signature is for.
#[derive(Clone, Copy, PartialEq, Eq, Debug)]
pub struct AuthData(pub [u8; 3]);

// RANDSSD: the 56 random bits of an SSD renewal.
#[derive(Clone, Copy, PartialEq, Eq, Debug)]
pub struct RandSsd(pub [u8; 7]);

// Shared secret data: SSD_A signs, SSD_B keys the ciphers.
#[derive(Clone, Copy, PartialEq, Eq, Debug)]
pub struct Ssd {
    pub a: u64,
    pub b: u64,
}

// The A-key of a terminal, with the serial number (ESN) of the terminal; the check is made of both.
#[derive(Clone, Copy, PartialEq, Eq, Debug)]
pub struct TerminalKey {
    pub esn: u32,
    pub key: u64,
}

// What new SSD is made of.
#[derive(Clone, Copy, PartialEq, Eq, Debug)]
pub struct Renewal {
    pub esn: u32,
    pub key: u64,
    pub rand_ssd: RandSsd,
}

// What a signature is made of: a 64-bit secret (SSD_A, old or new), a random challenge, and AUTH_DATA.
#[derive(Clone, Copy, PartialEq, Eq, Debug)]
pub struct Challenge {
    pub esn: u32,
    pub secret: u64,
    pub rand: u32,
    pub auth_data: AuthData,
}

// What a run of CAVE leaves for the next one: the LFSR and both offsets.
#[derive(Clone, Copy, PartialEq, Eq, Debug)]
pub struct RunEnd {
    pub lfsr: u32,
    pub offset1: u8,
    pub offset2: u8,
}

impl From<CaveState> for RunEnd {
    ghost from_gives = { λ last end. end ≡ run_end_of last };

    fn from(last: CaveState) -> RunEnd {
        RunEnd {
            lfsr: last.lfsr,
            offset1: last.offset1,
            offset2: last.offset2,
        }
    }
}

// A signature of 18 bits, with what its run leaves.
#[derive(Clone, Copy, PartialEq, Eq, Debug)]
pub struct Signed {
    pub signature: u32,
    pub left: RunEnd,
}

// What the opening of a call leaves for its ciphers: SSD_B, the ESN, the call's RAND and AUTH_DATA, and what the opening
// signature left.
#[derive(Clone, Copy, PartialEq, Eq, Debug)]
pub struct OpeningRecord {
    pub ssd_b: u64,
    pub esn: u32,
    pub rand: u32,
    pub auth_data: AuthData,
    pub left: RunEnd,
}

// The CMEA key and the voice privacy mask of a call.
#[derive(Clone, Copy, PartialEq, Eq, Debug)]
pub struct CallKeys {
    pub cmea_key: [u8; 8],
    pub voice_mask: [u8; 65],
}
