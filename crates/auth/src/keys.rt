// The CMEA key and the voice privacy mask of a call: one iteration of eight rounds that goes on from what the opening signature
// left, then up to thirteen of four rounds. Before each of these the LFSR is loaded anew from the registers, the roll-over.
ghost use Rattle.std.specs.Prelude.{◌≡◌};
ghost use Rattle.cave.specs.Rounds.{after_rounds};
ghost use Rattle.auth.specs.Keys.{opening_loading, rolled, iteration, cmea_key_of, voice_mask_of, call_keys_of, KeysBy, MasksBy};

use crate::load::{blend, load_state, or_if_zero};
use crate::types::{CallKeys, OpeningRecord};
use cave::cave;
use cave::state::{CaveState, Rounds};

// The first iteration.
fn open_state(of: OpeningRecord) -> CaveState
    ensures { result ≡ after_rounds 8 (opening_loading of) }
{
    let lfsr = or_if_zero(blend(of.left.lfsr, of.ssd_b), of.rand);
    let fresh = load_state(lfsr, of.ssd_b, of.auth_data.0, of.esn);
    let start = CaveState {
        offset1: of.left.offset1,
        offset2: of.left.offset2,
        ..fresh
    };
    cave(start, Rounds::Eight)
}

// The roll-over: the LFSR becomes R0, R1, R14 and R15, or RAND where they are zero.
#[tactic(auto, unfolding(cave::specs::Bytes::wide))]
fn roll(rand: u32, m: CaveState) -> CaveState
    ensures { result ≡ rolled rand m }
{
    let r = m.registers;
    let lfsr = u32::from_be_bytes([r[0], r[1], r[14], r[15]]);
    CaveState {
        lfsr: or_if_zero(lfsr, rand),
        ..m
    }
}

// One further iteration.
fn iterate(rand: u32, m: CaveState) -> CaveState
    ensures { result ≡ after_rounds 4 (rolled rand m) }
{
    cave(roll(rand, m), Rounds::Four)
}

// The CMEA key of a call, with the state of iteration 2, from which the mask goes on.
#[tactic(auto, unfolding(crate::specs::Keys::cmea_key_of, crate::specs::Keys::iteration))]
fn key_and_state(of: OpeningRecord) -> ([u8; 8], CaveState)
    ensures key { result.0 ≡ cmea_key_of of }
    ensures state { result.1 ≡ iteration of 2 }
{
    let one = iterate(of.rand, open_state(of));
    let two = iterate(of.rand, one);
    let a = one.registers;
    let b = two.registers;
    // Listed: in a loop the state and the index of each byte would be a quotient and a remainder by 4.
    let key = [
        a[4] ^ a[8],
        a[5] ^ a[9],
        a[6] ^ a[10],
        a[7] ^ a[11],
        b[4] ^ b[8],
        b[5] ^ b[9],
        b[6] ^ b[10],
        b[7] ^ b[11],
    ];
    (key, two)
}

// The mask: six bytes off each iteration from 3 on, where `two` is the state of iteration 2.
fn mask_bytes(of: OpeningRecord, two: CaveState) -> [u8; 65]
    requires { two ≡ iteration of 2 }
    ensures { result ≡ voice_mask_of of }
{
    let mut m = two;
    let mut out = [0; 65];
    // By `enumerate`: after a loop over `chunks_mut(6)` nothing is known of the bytes that it wrote.
    for (k, byte) in out.iter_mut().enumerate() {
        let at = k % 6;
        if at == 0 {
            m = iterate(of.rand, m);
        }
        *byte = m.registers[at + 2] ^ m.registers[at + 8];
    }
    out
}

// The CMEA key of a call.
#[tactic(auto, using(crate::proofs::Derived::keys_by))]
pub fn cmea_key(of: OpeningRecord) -> [u8; 8]
    ensures result { result ≡ cmea_key_of of }
    ensures lawful { KeysBy of result }
{
    key_and_state(of).0
}

// The CMEA key and the voice privacy mask of a call.
#[tactic(auto, using(crate::proofs::Derived::keys_by, crate::proofs::Derived::masks_by))]
pub fn call_keys(of: OpeningRecord) -> CallKeys
    ensures result { result ≡ call_keys_of of }
    ensures key_lawful { KeysBy of result.cmea_key }
    ensures mask_lawful { MasksBy of result.voice_mask }
{
    let (cmea_key, two) = key_and_state(of);
    let voice_mask = mask_bytes(of, two);
    CallKeys {
        cmea_key,
        voice_mask,
    }
}
