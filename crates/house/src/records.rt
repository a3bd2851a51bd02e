// Fresh and mount: the services that alter the drive record.
ghost use Rattle.std.specs.Prelude.{◌≡◌};
ghost use Rattle.answers.specs.Answers.{done_of, settled};
ghost use Rattle.house.specs.Mount.{fresh_call, mount_call};

use crate::cartridge::{mount_fault, partitions_of};
use answers::Refusal;

// Makes a fresh drive record, refused for a record that is not 30 bytes.
#[tactic(auto, unfolding(crate::specs::Mount::fresh_call, answers::specs::Answers::first))]
pub fn fresh(rec: &mut [u8]) -> Result<(), Refusal>
    ensures { settled (done_of result) rec.new ≡ fresh_call rec.old }
{
    if rec.len() != record::RECORD_LENGTH {
        return Err(Refusal::RecordFault);
    }
    record::encode(record::fresh_drive(), rec);
    Ok(())
}

// Mounts a cartridge, refused for the record, while loaded, and then for the partitions.
#[tactic(auto, using(crate::proofs::Mounted::mountable), unfolding(crate::specs::Mount::mount_call))]
pub fn mount(rec: &mut [u8], p0: &[u8], p1: &[u8]) -> Result<(), Refusal>
    ensures { settled (done_of result) rec.new ≡ mount_call rec.old p0.now p1.now }
{
    mount_fault(rec, p0, p1)?;
    record::encode(record::mounted(partitions_of(p1)), rec);
    Ok(())
}
