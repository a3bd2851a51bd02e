// What READ POSITION returns, in its two forms.
ghost use Rattle.std.specs.Prelude.{◌≡◌};
ghost use Rattle.commands.specs.Parameters.{position_flags, short_position, long_position};

use kinds::{LONG_LENGTH, SHORT_LENGTH};

// BOP 80h, zone 40h.
#[tactic(auto, using(crate::proofs::Spelt::flagged))]
fn position_flags(position: u32, zone: bool) -> u8
    ensures { result ≡ position_flags position zone }
{
    ((position == 0) as u8) << 7 | (zone as u8) << 6
}

// Form 00h.
#[tactic(auto, using(crate::proofs::Spelt::short))]
pub fn short_position(partition: u8, position: u32, zone: bool) -> [u8; SHORT_LENGTH]
    ensures { result ≡ short_position partition position zone }
{
    let flags = position_flags(position, zone);
    let [a, b, c, d] = position.to_be_bytes();
    [
        flags, partition, 0, 0, a, b, c, d, a, b, c, d, 0, 0, 0, 0, 0, 0, 0, 0,
    ]
}

// Form 06h.
#[tactic(auto, using(crate::proofs::Spelt::long))]
pub fn long_position(partition: u8, position: u32, zone: bool, filemarks: u32) -> [u8; LONG_LENGTH]
    ensures { result ≡ long_position partition position zone filemarks }
{
    let flags = position_flags(position, zone);
    let [a, b, c, d] = position.to_be_bytes();
    let [e, f, g, h] = filemarks.to_be_bytes();
    [
        flags, 0, 0, 0, 0, 0, 0, partition, 0, 0, 0, 0, a, b, c, d, 0, 0, 0, 0, e, f, g, h, 0, 0,
        0, 0, 0, 0, 0, 0,
    ]
}
