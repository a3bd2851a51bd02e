// How many bytes a command takes from the data sent, and how many of the receiving buffer it may need: in 64 bits, which hold
// any length × block length.
ghost use Rattle.std.specs.Prelude.{◌≡◌, cond, ◌≤◌, min, eqb, length};
ghost use Rattle.codes.specs.Fields.{dbd_of, form_of, allocation_of};
ghost use Rattle.commands.specs.Parameters.{header_length, whole_length, short_length, long_length};
ghost use Rattle.commands.specs.Act.{short_form, sense_reply};
ghost use Rattle.commands.specs.Tests.{reply_length};
ghost use Rattle.commands.specs.Tests.{taken, needed};

use codes::Operation;
use kinds::{HEADER_LENGTH, LIMITS_LENGTH, LONG_LENGTH, SHORT_FORM, SHORT_LENGTH, WHOLE_LENGTH};
use record::Drive;

// How many bytes the command takes from the data sent.
#[tactic(auto, unfolding(commands::specs::Tests::taken))]
pub fn taken(o: Operation, d: Drive, cmd: &[u8]) -> u64
    requires { 5 ≤ length cmd.now }
    ensures { result ≡ taken o d cmd.now }
{
    match o {
        Operation::Write => kinds::bytes_asked(d, cmd),
        Operation::ModeSelect => u64::from(codes::allocation(cmd)),
        _ => 0,
    }
}

// The smaller of the allocation and a reply's length.
fn limited(cmd: &[u8], n: u64) -> u64
    requires { 5 ≤ length cmd.now }
    ensures { result ≡ min (allocation_of cmd.now) n }
{
    n.min(u64::from(codes::allocation(cmd)))
}

// The length of the mode data.
fn mode_length(cmd: &[u8]) -> u64
    requires { 2 ≤ length cmd.now }
    ensures { result ≡ cond (dbd_of cmd.now) header_length whole_length }
{
    let n = if codes::dbd(cmd) {
        HEADER_LENGTH
    } else {
        WHOLE_LENGTH
    };
    n as u64
}

// The length of the position, by its form.
fn position_length(cmd: &[u8]) -> u64
    requires { 2 ≤ length cmd.now }
    ensures { result ≡ cond (eqb (form_of cmd.now) short_form) short_length long_length }
{
    let n = if codes::form(cmd) == SHORT_FORM {
        SHORT_LENGTH
    } else {
        LONG_LENGTH
    };
    n as u64
}

// The length of the sense, in the form asked for.
fn sense_length(d: Drive, cmd: &[u8]) -> u64
    requires { 2 ≤ length cmd.now }
    ensures { result ≡ length (sense_reply d cmd.now) }
{
    payloads::asked_length(d, codes::asks_descriptors(cmd)) as u64
}

// The length of its reply: the same whatever it sees of the partition.
#[tactic(auto, unfolding(commands::specs::Tests::reply_length))]
fn reply_length(o: Operation, d: Drive, cmd: &[u8]) -> u64
    requires { 5 ≤ length cmd.now }
    ensures { result ≡ reply_length o d cmd.now }
{
    match o {
        Operation::RequestSense => limited(cmd, sense_length(d, cmd)),
        Operation::ReadBlockLimits => LIMITS_LENGTH as u64,
        Operation::ModeSense => limited(cmd, mode_length(cmd)),
        Operation::ReadPosition => position_length(cmd),
        _ => 0,
    }
}

// How many bytes of the receiving buffer it may need.
#[tactic(auto, unfolding(commands::specs::Tests::needed))]
pub fn needed(o: Operation, d: Drive, cmd: &[u8]) -> u64
    requires { 5 ≤ length cmd.now }
    ensures { result ≡ needed o d cmd.now }
{
    match o {
        Operation::Read => kinds::bytes_asked(d, cmd),
        _ => reply_length(o, d, cmd),
    }
}
