// What stands of a command when it has acted, by value.
ghost use Rattle.std.specs.Prelude.{◌≡◌, ◌≤◌, length};
ghost use Rattle.commands.specs.Act.{carrying, target_of};
ghost use Rattle.commands.specs.Act.{good, checked, at, unattended};
ghost use Rattle.deeds.specs.Left.{left_by, left_crossing};

use codes::Operation;
use record::Drive;
use sense::Sense;

// The drive with its sense replaced, the SCSI status, the bytes carried, the objects crossed.
#[derive(Clone, Copy, Debug, PartialEq, Eq)]
pub struct Left {
    pub drive: Drive,
    pub status: u8,
    pub carried: u32,
    pub crossed: u32,
}

const GOOD: u8 = 0x00;

// GOOD, with the empty sense.
#[tactic(auto, unfolding(commands::specs::Step::status_of, commands::specs::Step::kept_of))]
pub fn good(d: Drive, carried: u32) -> Left
    ensures { result ≡ left_by (carrying carried (good d)) }
{
    Left {
        drive: record::with_sense(d, sense::empty()),
        status: GOOD,
        carried,
        crossed: 0,
    }
}

// CHECK CONDITION, with this sense.
#[tactic(auto, unfolding(commands::specs::Step::status_of, commands::specs::Step::kept_of))]
pub fn checked(d: Drive, s: Sense, carried: u32) -> Left
    ensures { result ≡ left_by (carrying carried (checked d s)) }
{
    Left {
        drive: record::with_sense(d, s.into()),
        status: answers::CHECK_CONDITION,
        carried,
        crossed: 0,
    }
}

// The same with n objects crossed.
pub fn crossing(l: Left, n: u32) -> Left
    ensures { result ≡ left_crossing n l }
{
    Left { crossed: n, ..l }
}

// The drive at position n.
pub fn at(d: Drive, n: u32) -> Drive
    ensures { result ≡ at d n }
{
    Drive { position: n, ..d }
}

// The partition that LOCATE, of either length, goes to.
#[tactic(auto, unfolding(commands::specs::Act::target_of))]
pub fn target_of(o: Operation, d: Drive, cmd: &[u8]) -> u8
    requires { 9 ≤ length cmd.now }
    ensures { result ≡ target_of o d cmd.now }
{
    if codes::changes_partition(cmd) {
        kinds::named_partition(o, cmd)
    } else {
        d.current
    }
}

// The drive with no attention waiting.
pub fn unattended(d: Drive) -> Drive
    ensures { result ≡ unattended d }
{
    Drive {
        attention: record::NO_ATTENTION,
        ..d
    }
}
