// The three registers, and the key byte that they give.
ghost use Rattle.std.specs.Prelude.{◌≡◌};

use crate::steps::{high_byte, step_a, step_k, steps_b};

#[derive(Clone, Copy, PartialEq, Eq, Debug)]
pub struct Registers {
    pub k: u32,
    pub a: u32,
    pub b: u32,
}

impl Registers {
    ghost use Rattle.oryx.specs.Steps.{stepped, key_byte};

    // One step of all three: K first, and then A and B by the new K.
    #[tactic(auto, unfolding(crate::specs::Steps::stepped))]
    pub(crate) fn step(self) -> Registers
        ensures { result ≡ stepped self }
    {
        let k = step_k(self.k);
        Registers {
            k,
            a: step_a(k, self.a),
            b: steps_b(k, self.b),
        }
    }

    // The key byte of registers that have stepped.
    pub(crate) fn key_byte(self, table: &[u8; 256]) -> u8
        ensures { result ≡ key_byte table.now self }
    {
        high_byte(self.k)
            .wrapping_add(table[high_byte(self.a) as usize])
            .wrapping_add(table[high_byte(self.b) as usize])
    }
}
