// A command block against the tables: long enough, and no bit outside its mask.
ghost use Rattle.std.specs.Prelude.{◌≡◌, false};
ghost use Rattle.codes.specs.Codes.{too_short, masks_hold};

use crate::operation::{block_length, masks_of};

// Whether a command block is empty or shorter than its length.
#[tactic(auto, unfolding(crate::specs::Codes::too_short))]
pub fn is_too_short(cmd: &[u8]) -> bool
    ensures { result ≡ too_short cmd.now }
{
    cmd.is_empty() || cmd.len() < block_length(cmd[0]) as usize
}

// Whether no bit of the command block, from byte 1 on, lies outside its mask.
#[tactic(auto, unfolding(crate::specs::Codes::too_short, crate::specs::Codes::masks_hold))]
pub fn masks_hold(cmd: &[u8]) -> bool
    requires { too_short cmd.now ≡ false }
    ensures { result ≡ masks_hold cmd.now }
{
    let n = block_length(cmd[0]) as usize;
    let masks = masks_of(cmd[0]);
    cmd[..n]
        .iter()
        .skip(1)
        .zip(&masks)
        .all(|(x, m)| x & m == *x)
}
