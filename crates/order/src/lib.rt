// The tests of a command in document 01's order, after 1 and 4: what ends it before it acts.
#![tactic(auto)]

ghost use Rattle.std.specs.Prelude.{◌≡◌, true, false, length};
ghost use Rattle.codes.specs.Codes.{code_of, too_short, operation_of};
ghost use Rattle.answers.specs.Answers.{first};
ghost use Rattle.commands.specs.Tests.{tests};
ghost use Rattle.commands.specs.Kinds.{writes};
ghost use Rattle.commands.specs.Act.{Seen};
ghost use Rattle.order.specs.Stops.{stop_of};

use answers::Refusal;
use codes::Operation;
use conditions::{
    attention_waits, is_any_field_wrong, is_list_length_wrong, is_partition_wrong,
    is_without_cartridge, is_write_stopped, needed, taken,
};
use record::Drive;
use sense::Code;

// What ends a command before it acts: a refusal; the waiting attention; or CHECK CONDITION with this code.
#[derive(Clone, Copy, Debug, PartialEq, Eq)]
pub enum Stop {
    Refuse(Refusal),
    Attend,
    Fault(Code),
}

// The first test that holds, for a command block that is not too short, whatever is seen of the partition looked at beyond whether it is protected.
// Numbers 2 and 3 are compared in 64 bits, where no product is cut.
#[tactic(auto, using(commands::proofs::Long::served_long), unfolding(commands::specs::Tests::tests, answers::specs::Answers::first))]
pub fn stop_of(
    o: Operation,
    d: Drive,
    cmd: &[u8],
    guarded: bool,
    sent: &[u8],
    received: &[u8],
) -> Result<(), Stop>
    requires { (too_short cmd.now ≡ false) × (o ≡ operation_of (code_of cmd.now)) }
    ensures { (v : Seen) → (writes o ≡ true → v.guarded ≡ guarded) → stop_of result ≡ first (tests o d cmd.now v sent.now (length received.now)) }
{
    if attention_waits(o, d) {
        return Err(Stop::Attend);
    }
    if !kinds::is_served(o) {
        return Err(Stop::Fault(Code::INVALID_OPERATION_CODE));
    }
    if is_any_field_wrong(o, d, cmd) {
        return Err(Stop::Fault(Code::INVALID_FIELD));
    }
    if is_list_length_wrong(o, cmd) {
        return Err(Stop::Fault(Code::LIST_LENGTH_ERROR));
    }
    if is_without_cartridge(o, d) {
        return Err(Stop::Fault(Code::MEDIUM_NOT_PRESENT));
    }
    if is_partition_wrong(o, d, cmd) {
        return Err(Stop::Fault(Code::INVALID_FIELD));
    }
    if is_write_stopped(o, guarded) {
        return Err(Stop::Fault(Code::WRITE_PROTECTED));
    }
    if (sent.len() as u64) < taken(o, d, cmd) {
        return Err(Stop::Refuse(Refusal::SentShort));
    }
    if (received.len() as u64) < needed(o, d, cmd) {
        return Err(Stop::Refuse(Refusal::ReceivedShort));
    }
    Ok(())
}
