// When a drive is well formed, and what fresh, mount, LOAD and unload set.
ghost use Rattle.std.specs.Prelude.{◌≡◌};
ghost use Rattle.record.specs.Record.{attention_known, empty_handed, placed, well_formed, fresh_drive, mounted_drive, loaded_anew, unloaded, with_sense};

use crate::drive::Drive;
use sense::SENSE_LENGTH;

// The pending attentions, and the block length that a mount sets.
pub const NO_ATTENTION: u8 = 0x00;

pub const MEDIUM_CHANGED: u8 = 0x28;

pub const POWER_ON: u8 = 0x29;

const MOUNTED_BLOCK_LENGTH: u32 = 32768;

#[tactic(auto, unfolding(crate::specs::Record::attention_known))]
fn is_attention(a: u8) -> bool
    ensures { result ≡ attention_known a }
{
    matches!(a, NO_ATTENTION | MEDIUM_CHANGED | POWER_ON)
}

// Unloaded: partitions, current and position are 0.
#[tactic(auto, unfolding(crate::specs::Record::empty_handed))]
fn is_empty_handed(d: Drive) -> bool
    ensures { result ≡ empty_handed d }
{
    d.partitions == 0 && d.current == 0 && d.position == 0
}

// Loaded: 1 or 2 partitions, current below that.
#[tactic(auto, unfolding(crate::specs::Record::placed))]
fn is_placed(d: Drive) -> bool
    ensures { result ≡ placed d }
{
    (1..=2).contains(&d.partitions) && d.current < d.partitions
}

// Whether a drive is well formed, by its record alone.
#[tactic(auto, unfolding(crate::specs::Record::well_formed))]
pub fn is_well_formed(d: Drive) -> bool
    ensures { result ≡ well_formed d }
{
    let is_right = match d.loaded {
        0 => is_empty_handed(d),
        1 => is_placed(d),
        _ => false,
    };
    is_attention(d.attention) && d.block_length <= objects::LARGEST_BLOCK && is_right
}

// A fresh drive: nothing loaded, and the attention of power on.
#[tactic(auto, unfolding(crate::specs::Record::fresh_drive))]
pub fn fresh_drive() -> Drive
    ensures { result ≡ fresh_drive }
{
    Drive {
        loaded: 0,
        partitions: 0,
        current: 0,
        attention: POWER_ON,
        position: 0,
        block_length: 0,
        sense: sense::empty(),
    }
}

// A drive on which a cartridge of so many partitions was just mounted.
#[tactic(auto, unfolding(crate::specs::Record::mounted_drive))]
pub fn mounted(partitions: u8) -> Drive
    ensures { result ≡ mounted_drive partitions }
{
    Drive {
        loaded: 1,
        partitions,
        current: 0,
        attention: MEDIUM_CHANGED,
        position: 0,
        block_length: MOUNTED_BLOCK_LENGTH,
        sense: sense::empty(),
    }
}

// LOAD: the beginning of partition 0.
#[tactic(auto, unfolding(crate::specs::Record::loaded_anew))]
pub fn load_anew(d: Drive) -> Drive
    ensures { result ≡ loaded_anew d }
{
    Drive {
        current: 0,
        position: 0,
        ..d
    }
}

// Unload: nothing loaded; the block length stays.
#[tactic(auto, unfolding(crate::specs::Record::unloaded, crate::specs::Record::loaded_anew))]
pub fn unload(d: Drive) -> Drive
    ensures { result ≡ unloaded d }
{
    Drive {
        loaded: 0,
        partitions: 0,
        ..load_anew(d)
    }
}

// The kept sense replaced whole.
#[tactic(auto, unfolding(crate::specs::Record::with_sense))]
pub fn with_sense(d: Drive, sense: [u8; SENSE_LENGTH]) -> Drive
    ensures { result ≡ with_sense d sense }
{
    Drive { sense, ..d }
}
