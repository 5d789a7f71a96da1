// The steps of the registers.
ghost use Rattle.std.specs.Prelude.{◌≡◌};
ghost use Rattle.oryx.specs.Steps.{high, left_step, step_k, step_a, step_b, steps_b};

// The feedback of each register: where the bit that leaves it is XORed in.
const FEEDBACK_K: u32 = 0xc672_b008;

const FEEDBACK_A1: u32 = 0x04c1_1db7;

const FEEDBACK_A2: u32 = 0x0fc2_2f87;

const FEEDBACK_B: u32 = 0x8031_804b;

// The leftmost byte of a word.
pub(crate) fn high_byte(w: u32) -> u8
    ensures { result ≡ high w }
{
    (w >> 24) as u8
}

// A step to the left: the bit that leaves at the left end is fed back where `feedback` has its bits.
fn left_step(feedback: u32, w: u32) -> u32
    ensures { result ≡ left_step feedback w }
{
    (w << 1) ^ ((w >> 31) * feedback)
}

// One step of K, to the right. A K of zero, which would stay zero, is replaced first.
pub fn step_k(k: u32) -> u32
    ensures { result ≡ step_k k }
{
    let k = if k == 0 { 0x3141_5926 } else { k };
    (k >> 1) ^ (k % 2 * FEEDBACK_K)
}

// One step of A, to the left, with the feedback that the top bit of K chooses.
pub fn step_a(k: u32, a: u32) -> u32
    ensures { result ≡ step_a k a }
{
    let feedback = if k >> 31 == 1 {
        FEEDBACK_A1
    } else {
        FEEDBACK_A2
    };
    left_step(feedback, a)
}

// One step of B, to the left.
pub fn step_b(b: u32) -> u32
    ensures { result ≡ step_b b }
{
    left_step(FEEDBACK_B, b)
}

// B stepped twice where the bit of K below its top bit is set, and else once.
pub(crate) fn steps_b(k: u32, b: u32) -> u32
    ensures { result ≡ steps_b k b }
{
    if (k >> 30) % 2 == 1 {
        step_b(step_b(b))
    } else {
        step_b(b)
    }
}
