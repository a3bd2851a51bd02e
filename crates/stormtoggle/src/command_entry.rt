// The command: refused for the record's length; else the service, to which the drive that the record stands for is lent.
ghost use Rattle.std.specs.Prelude.{◌≡◌};
ghost use Rattle.answers.specs.Answers.{answer_of};
ghost use Rattle.commands.specs.Call.{lent, result_of, command_call};
ghost use Rattle.commands.specs.Call.{returned, numbered_result};

use answers::{Refusal, Reply};

// A SCSI command on the drive and the cartridge lent with it. A refusal leaves the record's bytes as they were.
#[tactic(auto, unfolding(commands::specs::Call::command_call, commands::specs::Call::called, record::specs::Record::well_record))]
pub fn command(
    rec: &mut [u8],
    cmd: &[u8],
    p0: &mut [u8],
    p1: &mut [u8],
    sent: &[u8],
    received: &mut [u8],
) -> Result<Reply, Refusal>
    ensures { result_of (answer_of result) rec.new (lent cmd.now p0.new p1.new sent.now received.new) ≡ command_call rec.old (lent cmd.now p0.old p1.old sent.now received.old) }
{
    // Number 1 comes before number 4; the service tests it for a record of the right length.
    if rec.len() != record::RECORD_LENGTH {
        if codes::is_too_short(cmd) {
            return Err(Refusal::CommandShort);
        }
        return Err(Refusal::RecordFault);
    }
    let d = record::decode(rec);
    let served = drive::serve_lent(d, cmd, p0, p1, sent, received)?;
    record::encode(served.drive, rec);
    Ok(served.reply)
}

#[unsafe(no_mangle)]
pub extern "C" fn stormtoggle_command(
    rec: &mut [u8],
    cmd: &[u8],
    p0: &mut [u8],
    p1: &mut [u8],
    sent: &[u8],
    received: &mut [u8],
) -> u64
    ensures { returned result rec.new (lent cmd.now p0.new p1.new sent.now received.new) ≡ numbered_result (command_call rec.old (lent cmd.now p0.old p1.old sent.now received.old)) }
{
    answers::pack(command(rec, cmd, p0, p1, sent, received).into())
}
