// Why a call declines: one enum for the whole library, with the number of each case and the values told with it. Public, on
// `Refusal`: `number`, `told`, and its text by `Display`.
#![tactic(auto)]

ghost use Rattle.std.specs.Prelude.{◌≡◌};
ghost use Rattle.refusal.specs.Refusals.{number_of, told_of, values};

use std::error::Error;
use std::fmt;

#[derive(Clone, Copy, PartialEq, Eq, Debug)]
pub enum Refusal {
    // key entry: the first byte that is no ASCII digit stands at this index
    NotADigit { index: usize },
    // key entry: so many bytes, fewer than 6 or more than 26
    WrongCount { count: usize },
    // key entry: the six check digits are not the check of the key
    CheckDiffers,
    // ciphering: a message of a length that the cipher does not take, with how many layers lie above the one that saw it
    WrongLength { length: usize, layers: u32 },
}

// The values told with a refusal. An enum and no list in fixed room: the kit's `ArrayVec` is not `Copy`.
#[derive(Clone, Copy, PartialEq, Eq, Debug)]
pub enum Told {
    Nothing,
    One(u64),
    Two(u64, u64),
}

impl Refusal {
    // The number of the case. A method and no `From`, since `u8::from(refusal)` would not say which number that is.
    pub fn number(&self) -> u8
        ensures { result ≡ number_of self.now }
    {
        match self {
            Refusal::NotADigit { .. } => 1,
            Refusal::WrongCount { .. } => 2,
            Refusal::CheckDiffers => 3,
            Refusal::WrongLength { .. } => 12,
        }
    }

    // What is told with it.
    pub fn told(&self) -> Told
        ensures { values result ≡ told_of self.now }
    {
        match *self {
            Refusal::NotADigit { index } => Told::One(index as u64),
            Refusal::WrongCount { count } => Told::One(count as u64),
            Refusal::CheckDiffers => Told::Nothing,
            Refusal::WrongLength { length, layers } => Told::Two(length as u64, layers as u64),
        }
    }
}

// `refused`, the number, and the told values in decimal.
impl fmt::Display for Refusal {
    fn fmt<W: fmt::Write>(&self, f: &mut fmt::Formatter<W>) -> fmt::Result {
        let number = self.number();
        match self.told() {
            Told::Nothing => write!(f, "refused {number}"),
            Told::One(value) => write!(f, "refused {number} {value}"),
            Told::Two(first, second) => write!(f, "refused {number} {first} {second}"),
        }
    }
}

impl Error for Refusal {}
