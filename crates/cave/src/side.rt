// The two sides of a search in the table, and what the tries on one of them leave. Public for the law of a run, which speaks of
// both: a crate above can only name what is public.
ghost use Rattle.std.specs.Prelude.{◌≡◌};
ghost use Rattle.cave.specs.Sides.{stage_of, mask_of};

// The low side takes the low half of a table's entry, the high side its high half.
#[derive(Clone, Copy, PartialEq, Eq, Debug)]
pub enum Side {
    Low,
    High,
}

impl Side {
    // The byte of the LFSR that moves the offset: A on the low side, B on the high side.
    pub(crate) fn stage(self, lfsr: u32) -> u8
        ensures { result ≡ stage_of self lfsr }
    {
        let [a, b, ..] = lfsr.to_be_bytes();
        match self {
            Side::Low => a,
            Side::High => b,
        }
    }

    // The bits of the half.
    pub(crate) fn mask(self) -> u8
        ensures { result ≡ mask_of self }
    {
        match self {
            Side::Low => 0x0f,
            Side::High => 0xf0,
        }
    }
}

// What the tries on one side leave: the LFSR, the offset, and the half byte found.
#[derive(Clone, Copy, PartialEq, Eq, Debug)]
pub struct Tried {
    pub lfsr: u32,
    pub offset: u8,
    pub half: u8,
}
