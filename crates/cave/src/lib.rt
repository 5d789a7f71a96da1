// CAVE, the mixing function of TR45.0.A: sixteen byte registers, a 32-bit LFSR and a 256-entry table, run for four or eight
// rounds. Public: `cave` (a run), `lfsr_cycle` (one cycle of the LFSR), `entry` (of the table), in `side` the two types that the law
// of a run speaks of, and in `uses` the trait for a use of CAVE with the one eight-round run for every use.
#![tactic(auto)]

ghost use Rattle.std.specs.Prelude.{◌≡◌, ◌<◌, ◌≤◌};
ghost use Rattle.cave.specs.Law.{Run};
ghost use Rattle.cave.specs.Mix.{tried, right_of, mixed};
ghost use Rattle.cave.specs.Rounds.{rotated, shuffled, round, after_rounds, how_many};
ghost use Rattle.cave.specs.Table.{RowsPermute};

pub mod lfsr;
pub mod side;
pub mod state;
pub mod table;
pub mod uses;

use lfsr::{lfsr_cycle, raise_d};
use side::{Side, Tried};
use state::{CaveState, Rounds};
use table::entry;

// The register to the right of register i; R15 has R0 as the round began.
fn neighbour(registers: [u8; 16], i: usize, saved: u8) -> u8
    requires { i < 16 }
    ensures { result ≡ right_of saved i registers }
{
    if i == 15 { saved } else { registers[i + 1] }
}

// R0 to R15 mixed in turn. Each half byte takes at most 32 tries: an equal one makes an LFSR cycle and another try, and
// after the 32nd 1 is added to D and that half is used.
#[tactic(auto, using(crate::proofs::Halves::mixing_steps), unfolding(crate::specs::Mix::mixed, crate::specs::Mix::mixed_at))]
fn mix(start: CaveState) -> CaveState
    ensures { result ≡ mixed start }
{
    let mut m = start;
    let saved = m.registers[0];
    // By index: register i + 1 is read while register i is written.
    for i in 0..16 {
        let r = m.registers[i];
        // Written once, for either side, and here in the loop, since it searches for the half bytes of this register.
        let search = |side: Side, mut lfsr: u32, mut offset: u8|
            ensures { result ≡ tried side 32 r 0 lfsr offset }
        {
            // The tries left, counted down by hand: `break` leaves the loop with the half byte, found or forced on the 32nd try.
            let mut left: u8 = 32;
            let half = loop {
                offset = offset.wrapping_add(side.stage(lfsr) ^ r);
                let half = entry(offset) & side.mask();
                if half != r & side.mask() {
                    break half;
                }
                lfsr = lfsr_cycle(lfsr);
                left -= 1;
                if left == 0 {
                    lfsr = raise_d(lfsr);
                    break half;
                }
            };
            Tried { lfsr, offset, half }
        };
        let low = search(Side::Low, m.lfsr, m.offset1);
        let high = search(Side::High, low.lfsr, m.offset2);
        m.registers[i] = neighbour(m.registers, i, saved) ^ (low.half | high.half);
        m.lfsr = lfsr_cycle(high.lfsr);
        m.offset1 = low.offset;
        m.offset2 = high.offset;
    }
    m
}

// The 128 bits of the registers rotated right by one.
fn rotate(registers: [u8; 16]) -> [u8; 16]
    ensures { result ≡ rotated registers }
{
    u128::from_be_bytes(registers).rotate_right(1).to_be_bytes()
}

// Register i moves to the place that entry i of row k names.
#[tactic(auto, using(crate::proofs::Turns::turning), unfolding(crate::specs::Rounds::shuffled, crate::specs::Table::place))]
fn shuffle(k: u8, registers: [u8; 16]) -> [u8; 16]
    requires { k < 8 }
    ensures { result ≡ shuffled k registers }
{
    let mut out = [0; 16];
    for (i, register) in registers.iter().enumerate() {
        let to = entry(16 * k + i as u8) & 0x0f;
        out[to as usize] = *register;
    }
    out
}

// The round of index k.
fn run_round(k: u8, m: CaveState) -> CaveState
    requires { k < 8 }
    ensures { result ≡ round k m }
{
    let n = mix(m);
    CaveState {
        registers: shuffle(k, rotate(n.registers)),
        ..n
    }
}

// The rounds from index n - 1 down to 0.
#[tactic(auto, using(crate::proofs::Lawful::rounds))]
fn run_down(start: CaveState, n: u8) -> CaveState
    requires { n ≤ 8 }
    ensures result { result ≡ after_rounds n start }
    ensures lawful { Run n start result }
    ensures rows { RowsPermute }
{
    let mut m = start;
    for k in (0..n).rev() {
        m = run_round(k, m);
    }
    m
}

// A run of CAVE.
pub fn cave(start: CaveState, count: Rounds) -> CaveState
    ensures result { result ≡ after_rounds (how_many count) start }
    ensures lawful { Run (how_many count) start result }
    ensures rows { RowsPermute }
{
    match count {
        Rounds::Four => run_down(start, 4),
        Rounds::Eight => run_down(start, 8),
    }
}
