// What CAVE works on: the mixing registers R0 to R15, the LFSR with its bytes A (the most significant), B, C and D,
// and the two offsets into the table.
#[derive(Clone, Copy, PartialEq, Eq, Debug)]
pub struct CaveState {
    pub registers: [u8; 16],
    pub lfsr: u32,
    pub offset1: u8,
    pub offset2: u8,
}

// How many rounds a run has.
#[derive(Clone, Copy, PartialEq, Eq, Debug)]
pub enum Rounds {
    Four,
    Eight,
}
