// What the masks of a call's frames are made with: the DataKey, from SSD_B, and the table, from RAND. Both stay as they are for the
// whole call.
ghost use Rattle.std.specs.Prelude.{◌≡◌, length};

use crate::key_stream::KeyStream;
use crate::registers::Registers;
use crate::steps::step_k;

#[derive(Clone, Copy, PartialEq, Eq, Debug)]
pub struct OryxCall {
    pub data_key: u32,
    pub table: [u8; 256],
}

impl OryxCall {
    ghost use Rattle.oryx.specs.Frames.{word, start, mask, masked};

    // The word that a HOOK looks up. Each of its bytes is looked up with the lowest byte of the HOOK added, as it was.
    fn look_up(&self, hook: u32) -> u32
        ensures { result ≡ word self.now.table hook }
    {
        let [b3, b2, b1, low] = hook.to_be_bytes();
        u32::from_be_bytes([
            self.table[b3.wrapping_add(low) as usize],
            self.table[b2.wrapping_add(low) as usize],
            self.table[b1.wrapping_add(low) as usize],
            self.table[low as usize],
        ])
    }

    // The registers before the first key byte of a frame.
    #[tactic(auto, unfolding(crate::specs::Frames::start, crate::specs::Steps::times))]
    fn start(&self, hook: u32) -> Registers
        ensures { result ≡ start self.now hook }
    {
        let first = step_k(self.look_up(hook));
        let second = step_k(first);
        let third = step_k(second);
        Registers {
            k: self.data_key ^ third,
            a: self.data_key ^ first,
            b: self.data_key ^ second,
        }
    }

    // XORs the mask of a frame onto a body of any length; the same again takes it off.
    pub fn cipher(&self, hook: u32, body: &mut [u8])
        ensures after { body.new ≡ masked self.now hook body.old }
        ensures length_stays { length body.new ≡ length body.old }
        ensures undoes_itself { masked self.now hook body.new ≡ body.old }
    {
        let mut stream = KeyStream {
            registers: self.start(hook),
            table: &self.table,
        };
        for byte in body.iter_mut() {
            *byte ^= stream.next_byte();
        }
    }

    // Fills `out` with the mask of a frame.
    pub fn mask(&self, hook: u32, out: &mut [u8])
        ensures { out.new ≡ mask self.now hook (length out.old) }
    {
        out.fill(0);
        self.cipher(hook, out);
    }
}
