// The conditions of the tests, in the order of the definition's list: each equals its row's.
ghost use Rattle.std.specs.Prelude.{◌≡◌, false, not, ◌&&◌, ◌||◌, [], ◌∷◌, ◌≤◌, eqb, leb, length};
ghost use Rattle.record.specs.Record.{no_attention};
ghost use Rattle.codes.specs.declared.operation.Operation.TheVariants.{ModeSelect};
ghost use Rattle.codes.specs.Codes.{code_of, too_short, operation_of, masks_hold};
ghost use Rattle.codes.specs.Fields.{allocation_of, changes_partition};
ghost use Rattle.commands.specs.Parameters.{list_length_known};
ghost use Rattle.commands.specs.Kinds.{among, passes_attention, needs_cartridge, locates, writes};
ghost use Rattle.commands.specs.Act.{named_partition};
ghost use Rattle.commands.specs.Tests.{field_error};

use codes::Operation;
use kinds::{HEADER_LENGTH, WHOLE_LENGTH};
use record::Drive;

// Whether an attention waits that the command does not pass.
pub fn attention_waits(o: Operation, d: Drive) -> bool
    ensures { result ≡ not (eqb d.attention no_attention) && not (passes_attention o) }
{
    d.attention != record::NO_ATTENTION && !kinds::passes_attention(o)
}

// Whether a field of a served command is wrong, by the masks or beyond them.
pub fn is_any_field_wrong(o: Operation, d: Drive, cmd: &[u8]) -> bool
    requires { (too_short cmd.now ≡ false) × (5 ≤ length cmd.now) }
    ensures { result ≡ not (masks_hold cmd.now) || field_error o d cmd.now }
{
    !codes::masks_hold(cmd) || kinds::is_field_wrong(o, d, cmd)
}

// Whether a list length is 0, 4 or 12.
#[tactic(auto, unfolding(commands::specs::Parameters::list_length_known))]
fn is_list_length(n: u8) -> bool
    ensures { result ≡ list_length_known n }
{
    matches!(n as usize, 0 | HEADER_LENGTH | WHOLE_LENGTH)
}

// Whether it is MODE SELECT with a list length other than 0, 4 and 12.
pub fn is_list_length_wrong(o: Operation, cmd: &[u8]) -> bool
    requires { 5 ≤ length cmd.now }
    ensures { result ≡ among (ModeSelect ∷ []) o && not (list_length_known (allocation_of cmd.now)) }
{
    o == Operation::ModeSelect && !is_list_length(codes::allocation(cmd))
}

// Whether it needs a cartridge and none is loaded.
pub fn is_without_cartridge(o: Operation, d: Drive) -> bool
    ensures { result ≡ needs_cartridge o && eqb d.loaded 0 }
{
    kinds::needs_cartridge(o) && d.loaded == 0
}

// Whether it is LOCATE to a partition that the cartridge does not have.
#[tactic(auto, using(commands::proofs::Long::locate_long_lem))]
pub fn is_partition_wrong(o: Operation, d: Drive, cmd: &[u8]) -> bool
    requires { (too_short cmd.now ≡ false) × (o ≡ operation_of (code_of cmd.now)) }
    ensures { result ≡ locates o && changes_partition cmd.now && leb d.partitions (named_partition o cmd.now) }
{
    kinds::locates(o)
        && codes::changes_partition(cmd)
        && d.partitions <= kinds::named_partition(o, cmd)
}

// Whether write protection stops it.
pub fn is_write_stopped(o: Operation, guarded: bool) -> bool
    ensures { result ≡ writes o && guarded }
{
    kinds::writes(o) && guarded
}
