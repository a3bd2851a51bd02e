// MODE SELECT: the list judged, and the block length that it sets.
ghost use Rattle.std.specs.Prelude.{◌≡◌, true, ◌≤◌, length};
ghost use Rattle.codes.specs.Fields.{allocation_of};
ghost use Rattle.commands.specs.Parameters.{list_length_known};
ghost use Rattle.commands.specs.Act.{selecting, with_length};
ghost use Rattle.deeds.specs.Left.{left_by};

use deeds::Left;
use payloads::{is_list_right, new_length};
use record::Drive;
use sense::{Code, Flags};

// The drive with block length n.
fn with_length(d: Drive, n: u32) -> Drive
    ensures { result ≡ with_length d n }
{
    Drive {
        block_length: n,
        ..d
    }
}

// MODE SELECT, with as many bytes sent as it takes.
#[tactic(auto, unfolding(commands::specs::Act::selecting, commands::specs::Parameters::list_length_known))]
pub fn select(d: Drive, cmd: &[u8], sent: &[u8]) -> Left
    requires { (5 ≤ length cmd.now) × (list_length_known (allocation_of cmd.now) ≡ true) × (allocation_of cmd.now ≤ length sent.now) }
    ensures { result ≡ left_by (selecting d cmd.now sent.now) }
{
    let n = codes::allocation(cmd);
    if n == 0 {
        return deeds::good(d, 0);
    }
    if !is_list_right(n, sent) {
        let told = sense::told(false, Flags::NONE, Code::INVALID_LIST_FIELD, Ok(0));
        return deeds::checked(d, told, 0);
    }
    if n as usize == kinds::WHOLE_LENGTH {
        return deeds::good(with_length(d, new_length(sent)), n as u32);
    }
    deeds::good(d, n as u32)
}
