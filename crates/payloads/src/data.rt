// What READ BLOCK LIMITS and MODE SENSE return.
ghost use Rattle.std.specs.Prelude.{◌≡◌, true, false, cond};
ghost use Rattle.commands.specs.Parameters.{block_limits, mode_data};

use kinds::{HEADER_LENGTH, LIMITS_LENGTH, WHOLE_LENGTH};

// Granularity 0, the largest block in three bytes, the least in two.
#[tactic(auto, using(crate::proofs::Spelt::limits))]
pub fn block_limits() -> [u8; LIMITS_LENGTH]
    ensures { result ≡ block_limits }
{
    let [_, high, middle, low] = objects::LARGEST_BLOCK.to_be_bytes();
    [0, high, middle, low, 0, 1]
}

// wp: 80h if protected.
fn protect_bit(guarded: bool) -> u8
    ensures { result ≡ cond guarded 0x80 0x00 }
{
    u8::from(guarded) << 7
}

// The mode header alone: DBD.
#[tactic(auto, unfolding(commands::specs::Parameters::mode_data))]
pub fn mode_header(guarded: bool) -> [u8; HEADER_LENGTH]
    ensures { result ≡ mode_data true guarded 0 }
{
    [0x03, 0, protect_bit(guarded), 0]
}

// The mode header with its block descriptor.
#[tactic(auto, using(crate::proofs::Spelt::descriptor))]
pub fn mode_data(guarded: bool, block_length: u32) -> [u8; WHOLE_LENGTH]
    ensures { result ≡ mode_data false guarded block_length }
{
    let wp = protect_bit(guarded);
    let [_, high, middle, low] = block_length.to_be_bytes();
    [0x0b, 0, wp, 0x08, 0, 0, 0, 0, 0, high, middle, low]
}
