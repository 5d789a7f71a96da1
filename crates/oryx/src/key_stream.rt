// The key bytes of a table, one after another.
ghost use Rattle.std.specs.Prelude.{◌≡◌};
ghost use Rattle.oryx.specs.Steps.{stepped, key_byte};

use crate::registers::Registers;

#[derive(Drop)]
pub struct KeyStream<'a> {
    pub registers: Registers,
    pub table: &'a [u8; 256],
}

impl KeyStream<'_> {
    // Steps the registers, and gives the key byte that they then have.
    pub(crate) fn next_byte(&mut self) -> u8
        ensures registers { self.new.registers ≡ stepped self.old.registers }
        ensures table { self.new.table ≡ self.old.table }
        ensures byte { result ≡ key_byte self.old.table.now self.new.registers }
    {
        self.registers = self.registers.step();
        self.registers.key_byte(self.table)
    }
}
