// What is made once per call: the DataKey and the table.
ghost use Rattle.std.specs.Prelude.{◌≡◌};
ghost use Rattle.std.specs.List.{range_with_len};
ghost use Rattle.oryx.specs.Steps.{times, step_k};
ghost use Rattle.oryx.specs.Laws.{EachOnce, StartsApart};
ghost use Rattle.oryx.specs.Frames.{call_of};
ghost use Rattle.oryx.specs.Tables.{call_table, hash_table, shift_in, mix_in, hash_round, data_key_of};

use crate::call::OryxCall;
use crate::key_stream::KeyStream;
use crate::registers::Registers;
use crate::steps::{high_byte, step_k};
use std::array;

// The numbers 0 to 255 in turn.
fn ascending() -> [u8; 256]
    ensures { result ≡ range_with_len 0 256 }
{
    array::from_fn(|i| i as u8)
}

// The table of a call. With each step of K the next entry and the one at the leftmost byte of K change places.
fn call_table(rand: u32) -> [u8; 256]
    ensures { result ≡ call_table rand }
{
    let mut table = ascending();
    let mut k = rand;
    // By index: `swap` takes two.
    for i in 0..256 {
        k = step_k(k);
        table.swap(i, high_byte(k) as usize);
    }
    table
}

// The table of the hash, and K as it leaves it.
fn hash_table(start: u32) -> ([u8; 256], u32)
    ensures table { result.0 ≡ hash_table start }
    ensures k { result.1 ≡ times 256 step_k start }
{
    let mut table = [0; 256];
    let mut k = start;
    for entry in table.iter_mut() {
        k = step_k(k);
        *entry = high_byte(k);
    }
    (table, k)
}

// A key byte enters a word from the right: the word moves left by 9 places.
fn shift_in(w: u32, byte: u8) -> u32
    ensures { result ≡ shift_in w byte }
{
    (w << 9).wrapping_add(byte as u32)
}

// A key byte takes the place of the second byte of K, and is ANDed into the third.
fn mix_in(k: u32, byte: u8) -> u32
    ensures { result ≡ mix_in k byte }
{
    let byte = byte as u32;
    ((k & 0xff00_ffff) + (byte << 16)) & (0xffff_00ff + (byte << 8))
}

impl KeyStream<'_> {
    // One round of the hash: three key bytes, one into each register.
    #[tactic(auto, unfolding(crate::specs::Tables::hash_round))]
    fn hash_round(&mut self)
        ensures registers { self.new.registers ≡ hash_round self.old.table.now self.old.registers }
        ensures table { self.new.table ≡ self.old.table }
    {
        let byte = self.next_byte();
        self.registers.a = shift_in(self.registers.a, byte);
        let byte = self.next_byte();
        self.registers.b = shift_in(self.registers.b, byte);
        let byte = self.next_byte();
        self.registers.k = mix_in(self.registers.k, byte);
    }
}

// The DataKey of SSD_B: its halves, hashed for 32 rounds.
#[tactic(auto, unfolding(crate::specs::Steps::times))]
fn data_key(ssd_b: u64) -> u32
    ensures { result ≡ data_key_of ssd_b }
{
    // The halves, for which `auth` has a function; this crate stands on no other.
    let a = (ssd_b >> 32) as u32;
    let b = (ssd_b % 0x1_0000_0000) as u32;
    let (table, k) = hash_table(a ^ b);
    let mut stream = KeyStream {
        registers: Registers { k, a, b },
        table: &table,
    };
    for _ in 0..32u8 {
        stream.hash_round();
    }
    let Registers { k, a, b } = stream.registers;
    a ^ b ^ k
}

// DataKey and table of a call.
fn derive(ssd_b: u64, rand: u32) -> OryxCall
    ensures { result ≡ call_of ssd_b rand }
{
    let table = call_table(rand);
    OryxCall {
        data_key: data_key(ssd_b),
        table,
    }
}

impl OryxCall {
    // What a call with this SSD_B and this RAND needs.
    pub fn new(ssd_b: u64, rand: u32) -> Self
        ensures result { result ≡ call_of ssd_b rand }
        ensures each_once { EachOnce result.table }
        ensures starts_apart { StartsApart result }
    {
        derive(ssd_b, rand)
    }
}
