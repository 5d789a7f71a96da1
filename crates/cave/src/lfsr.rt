// The linear feedback shift register.
ghost use Rattle.std.specs.Prelude.{◌≡◌};
ghost use Rattle.cave.specs.Lfsr.{cycled, d_raised};

// One cycle: a shift right by one; the new top bit is bit 6 of B XOR bits 2, 1 and 0 of D, read before the shift.
pub fn lfsr_cycle(lfsr: u32) -> u32
    ensures { result ≡ cycled lfsr }
{
    let taps = (lfsr >> 22) % 2 + (lfsr >> 2) % 2 + (lfsr >> 1) % 2 + lfsr % 2;
    taps % 2 * 0x8000_0000 + (lfsr >> 1)
}

// 1 added to D, with no carry into C.
pub(crate) fn raise_d(lfsr: u32) -> u32
    ensures { result ≡ d_raised lfsr }
{
    let [a, b, c, d] = lfsr.to_be_bytes();
    u32::from_be_bytes([a, b, c, d.wrapping_add(1)])
}
