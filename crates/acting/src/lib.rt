// The act of each command, once every test has passed.
#![tactic(auto)]

ghost use Rattle.std.specs.Prelude.{◌≡◌, [], ◌≤◌, length};
ghost use Rattle.words.specs.Words.{over};
ghost use Rattle.codes.specs.declared.operation.Operation.TheVariants.{LoadUnload};
ghost use Rattle.commands.specs.Act.{act};
ghost use Rattle.commands.specs.Step.{acted};
ghost use Rattle.commands.specs.Call.{seen_of, laid_out, nothing};
ghost use Rattle.deeds.specs.Left.{left_by, protected_only};
ghost use Rattle.acting.specs.Ready.{Ready, ReadyApart};

use codes::Operation;
use deeds::Left;
use image::Image;
use record::Drive;

// A command that needs no cartridge: of a partition it sees only whether it is protected.
pub fn act_apart(
    o: Operation,
    d: Drive,
    cmd: &[u8],
    guarded: bool,
    sent: &[u8],
    received: &mut [u8],
) -> Left
    requires { ReadyApart o d cmd.now sent.now (length received.old) guarded }
    ensures { (result ≡ left_by (act o d cmd.now sent.now (protected_only guarded))) × (received.new ≡ over received.old 0 (act o d cmd.now sent.now (protected_only guarded)).received) }
{
    match o {
        Operation::RequestSense => parameters::request_sense(d, cmd, received),
        Operation::ReadBlockLimits => parameters::read_block_limits(d, received),
        Operation::ModeSelect => parameters::select(d, cmd, sent),
        Operation::ModeSense => parameters::mode_sense(d, cmd, guarded, received),
        // All others need a cartridge.
        _ => deeds::good(d, 0),
    }
}

// LOAD UNLOAD.
fn load_unload(d: Drive, cmd: &[u8]) -> Left
    requires { 5 ≤ length cmd.now }
    ensures { result ≡ left_by (act LoadUnload d cmd.now [] nothing) }
{
    if codes::load(cmd) {
        return deeds::good(record::load_anew(d), 0);
    }
    deeds::good(record::unload(d), 0)
}

// Any command, on the partition that it looks at.
pub fn act_on(
    o: Operation,
    d: Drive,
    cmd: &[u8],
    s: &mut [u8],
    sent: &[u8],
    received: &mut [u8],
) -> Left
    requires { Ready o d cmd.now sent.now (length received.old) s.old }
    ensures { (result ≡ left_by (act o d cmd.now sent.now (seen_of s.old))) × (s.new ≡ laid_out (acted o d cmd.now sent.now (seen_of s.old)) s.old) × (received.new ≡ over received.old 0 (act o d cmd.now sent.now (seen_of s.old)).received) }
{
    match o {
        Operation::Read => reading::read(&Image::of(s), d, cmd, received),
        Operation::Write => writing::write(s, d, cmd, sent),
        Operation::WriteFilemarks => writing::write_filemarks(s, d, cmd),
        Operation::Space => moving::space(&Image::of(s), d, cmd),
        Operation::Space16 => moving::space16(&Image::of(s), d, cmd),
        Operation::Locate => moving::locate(&Image::of(s), d, cmd),
        Operation::Locate16 => moving::locate16(&Image::of(s), d, cmd),
        Operation::ReadPosition => parameters::read_position(&Image::of(s), d, cmd, received),
        Operation::Erase => writing::erase(s, d, cmd),
        Operation::LoadUnload => load_unload(d, cmd),
        Operation::Rewind => moving::rewind(d),
        Operation::TestUnitReady => deeds::good(d, 0),
        Operation::NotServed => deeds::good(d, 0),
        Operation::RequestSense
        | Operation::ReadBlockLimits
        | Operation::ModeSelect
        | Operation::ModeSense => act_apart(o, d, cmd, image::is_protected(s), sent, received),
    }
}
