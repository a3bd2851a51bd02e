// The drive lent: a command alters it where it stands. One thin function above the step by value, and one that lends it a local.
#![tactic(auto)]

ghost use Rattle.std.specs.Prelude.{◌≡◌};
ghost use Rattle.answers.specs.Answers.{answer_of};
ghost use Rattle.commands.specs.Call.{lent, outcome, drive_call};
ghost use Rattle.step.specs.Served.{outcome_of};

use answers::{Refusal, Reply};
use record::Drive;
use step::Served;

// One command on the lent drive, which a refusal leaves as it was.
pub fn serve(
    d: &mut Drive,
    cmd: &[u8],
    p0: &mut [u8],
    p1: &mut [u8],
    sent: &[u8],
    received: &mut [u8],
) -> Result<Reply, Refusal>
    ensures { outcome (answer_of result) d.new (lent cmd.now p0.new p1.new sent.now received.new) ≡ drive_call d.old (lent cmd.now p0.old p1.old sent.now received.old) }
{
    let served = step::serve_by_value(*d, cmd, p0, p1, sent, received)?;
    *d = served.drive;
    Ok(served.reply)
}

// One command on a drive by value, which is lent to `serve` as a local and taken back: so that a caller, as the entry point for C, takes and
// gets it by value.
pub fn serve_lent(
    d: Drive,
    cmd: &[u8],
    p0: &mut [u8],
    p1: &mut [u8],
    sent: &[u8],
    received: &mut [u8],
) -> Result<Served, Refusal>
    ensures { outcome_of d result (lent cmd.now p0.new p1.new sent.now received.new) ≡ drive_call d (lent cmd.now p0.old p1.old sent.now received.old) }
{
    let mut drive = d;
    let reply = serve(&mut drive, cmd, p0, p1, sent, received)?;
    Ok(Served { drive, reply })
}
