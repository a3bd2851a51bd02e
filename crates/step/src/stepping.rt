// A command on a drive that number 4 finds no fault with: the first test that holds ends it, else it acts.
ghost use Rattle.std.specs.Prelude.{◌≡◌, true, false, length};
ghost use Rattle.record.specs.Record.{well_formed, with_sense};
ghost use Rattle.codes.specs.Codes.{code_of, too_short, operation_of};
ghost use Rattle.commands.specs.Step.{check_answer, acted};
ghost use Rattle.commands.specs.Call.{lent, inserted, seen, looks_at, applied, step_of, drive_call};
ghost use Rattle.acting.specs.Ready.{Free};
ghost use Rattle.step.specs.Served.{answer_in, outcome_of, served_of};

use crate::partitions::{is_guarded, is_inserted};
use acting::{act_apart, act_on};
use answers::{CHECK_CONDITION, Refusal, Reply};
use codes::Operation;
use deeds::Left;
use order::Stop;
use record::Drive;
use sense::SENSE_LENGTH;

// What a command that is not refused leaves: the drive, and what it reports.
#[derive(Clone, Copy)]
pub struct Served {
    pub drive: Drive,
    pub reply: Reply,
}

// What an act leaves.
impl From<Left> for Served {
    ghost from_gives = { λ left served. served ≡ served_of left };

    fn from(left: Left) -> Served {
        Served {
            drive: left.drive,
            reply: Reply {
                status: left.status,
                carried: left.carried,
                crossed: left.crossed,
            },
        }
    }
}

// CHECK CONDITION, nothing carried and nothing crossed, with this sense.
fn checks(d: Drive, sense: [u8; SENSE_LENGTH]) -> Served
    ensures { (result.drive ≡ with_sense d sense) × (answer_in result ≡ check_answer) }
{
    Served {
        drive: record::with_sense(d, sense),
        reply: Reply {
            status: CHECK_CONDITION,
            carried: 0,
            crossed: 0,
        },
    }
}

// The partition that a command looks at: LOCATE's target, else the current one.
#[tactic(auto, using(commands::proofs::Long::locate_long_lem), unfolding(commands::specs::Call::looks_at))]
fn looks_at(o: Operation, d: Drive, cmd: &[u8]) -> u8
    requires { (too_short cmd.now ≡ false) × (o ≡ operation_of (code_of cmd.now)) }
    ensures { result ≡ looks_at o d cmd.now }
{
    if kinds::locates(o) {
        deeds::target_of(o, d, cmd)
    } else {
        d.current
    }
}

// The act of a command that no test has stopped.
fn acts(
    o: Operation,
    d: Drive,
    cmd: &[u8],
    p0: &mut [u8],
    p1: &mut [u8],
    sent: &[u8],
    received: &mut [u8],
) -> Served
    requires { (well_formed d ≡ true) × (inserted d p0.old p1.old ≡ true) × Free o d cmd.now sent.now (length received.old) (seen o d (lent cmd.now p0.old p1.old sent.now received.old)) }
    ensures { outcome_of d (Ok result) (lent cmd.now p0.new p1.new sent.now received.new) ≡ applied (acted o d cmd.now sent.now (seen o d (lent cmd.now p0.old p1.old sent.now received.old))) (looks_at o d cmd.now) (lent cmd.now p0.old p1.old sent.now received.old) }
{
    if d.loaded == 0 {
        act_apart(o, d, cmd, false, sent, received).into()
    } else if looks_at(o, d, cmd) == 1 {
        act_on(o, d, cmd, p1, sent, received).into()
    } else {
        act_on(o, d, cmd, p0, sent, received).into()
    }
}

// One command: the tests in order, and then its act.
fn step(
    d: Drive,
    cmd: &[u8],
    p0: &mut [u8],
    p1: &mut [u8],
    sent: &[u8],
    received: &mut [u8],
) -> Result<Served, Refusal>
    requires { (too_short cmd.now ≡ false) × (well_formed d ≡ true) × (inserted d p0.old p1.old ≡ true) }
    ensures { outcome_of d result (lent cmd.now p0.new p1.new sent.now received.new) ≡ step_of d (lent cmd.now p0.old p1.old sent.now received.old) }
{
    let o = Operation::from(cmd[0]);
    let guarded = is_guarded(d, p0, p1);
    match order::stop_of(o, d, cmd, guarded, sent, received) {
        Ok(()) => Ok(acts(o, d, cmd, p0, p1, sent, received)),
        Err(Stop::Refuse(refusal)) => Err(refusal),
        Err(Stop::Attend) => Ok(checks(deeds::unattended(d), sense::of_attention(d.attention))),
        Err(Stop::Fault(code)) => Ok(checks(d, sense::plainly(code))),
    }
}

// The whole command on any drive: number 1, number 4, and then the step. One that is refused leaves the drive as it was.
#[tactic(auto, unfolding(commands::specs::Call::drive_call, commands::specs::Call::called))]
pub fn serve_by_value(
    d: Drive,
    cmd: &[u8],
    p0: &mut [u8],
    p1: &mut [u8],
    sent: &[u8],
    received: &mut [u8],
) -> Result<Served, Refusal>
    ensures { outcome_of d result (lent cmd.now p0.new p1.new sent.now received.new) ≡ drive_call d (lent cmd.now p0.old p1.old sent.now received.old) }
{
    if codes::is_too_short(cmd) {
        return Err(Refusal::CommandShort);
    }
    if !record::is_well_formed(d) || !is_inserted(d, p0, p1) {
        return Err(Refusal::RecordFault);
    }
    step(d, cmd, p0, p1, sent, received)
}
