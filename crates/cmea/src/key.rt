// A CMEA key, with the table of its substitution: what `tbox` gives for each byte, made once.
ghost use Rattle.std.specs.Prelude.{◌≡◌, ℕ, ◌<◌, ◌≤◌, length, slice_index};
ghost use Rattle.cmea.specs.Substitution.{stage, tbox};
ghost use Rattle.cmea.specs.Passes.{drawn, first_pass, second_pass, third_pass};
ghost use Rattle.cmea.specs.Ciphering.{answer_to, ciphered, TurnsLowestBit};

use cave::table::entry;
use refusal::Refusal;
use std::array;

#[derive(Clone, Copy, PartialEq, Eq, Debug)]
pub struct CmeaKey {
    pub bytes: [u8; 8],
    substitution: [u8; 256],
    ghost made: { (z : ℕ) → z < 256 → slice_index substitution z ≡ tbox bytes z },
}

// One look-up of the substitution of z, under two bytes of the key.
fn look_up(first: u8, second: u8, z: u8, r: u8) -> u8
    ensures { result ≡ stage first second z r }
{
    z.wrapping_add(entry((r ^ first).wrapping_add(second)))
}

// The substitution of z: four look-ups in a row, as its definition has them. A loop over pairs would need an invariant of its own.
#[tactic(auto, unfolding(crate::specs::Substitution::tbox))]
fn substitute(key: [u8; 8], z: u8) -> u8
    ensures { result ≡ tbox key z }
{
    let r = look_up(key[0], key[1], z, z);
    let r = look_up(key[2], key[3], z, r);
    let r = look_up(key[4], key[5], z, r);
    look_up(key[6], key[7], z, r)
}

impl CmeaKey {
    // The key of these bytes.
    pub fn new(bytes: [u8; 8]) -> Self
        ensures { result.bytes ≡ bytes }
    {
        let substitution = array::from_fn(|z| substitute(bytes, z as u8));
        CmeaKey {
            bytes,
            substitution,
        }
    }

    // The substitution of z, looked up.
    fn at(&self, z: u8) -> u8
        ensures { result ≡ tbox self.now.bytes z }
    {
        self.substitution[z as usize]
    }

    // The substitution drawn for byte i, where z is the running sum.
    fn draw(&self, i: usize, z: u8) -> u8
        ensures { result ≡ drawn (tbox self.now.bytes) i z }
    {
        self.at(z ^ (i % 256) as u8)
    }

    // The first pass. It stays apart from the third: one loop for both, over a closure that gives the new byte and the byte to be
    // summed, took 31 lines in place of 21, and two `requires`.
    #[tactic(auto, unfolding(crate::specs::Passes::first_pass))]
    fn raise(&self, message: &mut [u8])
        ensures { message.new ≡ first_pass (tbox self.now.bytes) 0 0 message.old }
    {
        let mut z: u8 = 0;
        for (i, byte) in message.iter_mut().enumerate() {
            *byte = byte.wrapping_add(self.draw(i, z));
            z = z.wrapping_add(*byte);
        }
    }

    // The third pass, which undoes the first.
    #[tactic(auto, unfolding(crate::specs::Passes::third_pass))]
    fn lower(&self, message: &mut [u8])
        ensures { message.new ≡ third_pass (tbox self.now.bytes) 0 0 message.old }
    {
        let mut z: u8 = 0;
        for (i, byte) in message.iter_mut().enumerate() {
            let raised = *byte;
            *byte = raised.wrapping_sub(self.draw(i, z));
            z = z.wrapping_add(raised);
        }
    }

    // Enciphers or deciphers a message in place; the two are the same. A message of under two bytes is refused with its length
    // and stays as it was.
    pub fn cipher(&self, message: &mut [u8]) -> Result<(), Refusal>
        ensures answer { result ≡ answer_to message.old }
        ensures after { message.new ≡ ciphered self.now.bytes message.old }
        ensures length_stays { length message.new ≡ length message.old }
        ensures undoes_itself { ciphered self.now.bytes message.new ≡ message.old }
        ensures turns_lowest_bit { 2 ≤ length message.old → TurnsLowestBit message.old message.new }
    {
        let length = message.len();
        if length < 2 {
            return Err(Refusal::WrongLength { length, layers: 0 });
        }
        self.raise(message);
        fold(message);
        self.lower(message);
        Ok(())
    }
}

// The second pass: a byte of the first half takes up the byte as far from the end, with its lowest bit set.
fn fold(message: &mut [u8])
    ensures { message.new ≡ second_pass message.old }
{
    let (front, back) = message.split_at_mut(message.len() / 2);
    // By index from the end: after a `zip` over `iter_mut` nothing is known of the bytes that it wrote.
    for (i, near) in front.iter_mut().enumerate() {
        *near ^= back[back.len() - 1 - i] | 1;
    }
}
