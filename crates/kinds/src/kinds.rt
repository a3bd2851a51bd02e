// What kind of command an operation is.
ghost use Rattle.std.specs.Prelude.{◌≡◌, ◌≤◌, length};
ghost use Rattle.commands.specs.Kinds.{passes_attention, is_served, needs_cartridge};
ghost use Rattle.commands.specs.Kinds.{locates, writes};
ghost use Rattle.commands.specs.Act.{named_partition};

use codes::Operation;

// Whether the attention lets it pass.
pub fn passes_attention(o: Operation) -> bool
    ensures { result ≡ passes_attention o }
{
    o == Operation::RequestSense
}

// Whether it is served.
pub fn is_served(o: Operation) -> bool
    ensures { result ≡ is_served o }
{
    o != Operation::NotServed
}

// Whether it needs a cartridge.
pub fn needs_cartridge(o: Operation) -> bool
    ensures { result ≡ needs_cartridge o }
{
    !matches!(
        o,
        Operation::RequestSense
            | Operation::ReadBlockLimits
            | Operation::ModeSelect
            | Operation::ModeSense
    )
}

// Whether it is LOCATE, of either length.
pub fn locates(o: Operation) -> bool
    ensures { result ≡ locates o }
{
    matches!(o, Operation::Locate | Operation::Locate16)
}

// The partition that LOCATE names.
pub fn named_partition(o: Operation, cmd: &[u8]) -> u8
    requires { 9 ≤ length cmd.now }
    ensures { result ≡ named_partition o cmd.now }
{
    if o == Operation::Locate16 {
        codes::partition16(cmd)
    } else {
        codes::partition(cmd)
    }
}

// Whether write protection stops it.
pub fn writes(o: Operation) -> bool
    ensures { result ≡ writes o }
{
    matches!(
        o,
        Operation::Write | Operation::WriteFilemarks | Operation::Erase
    )
}
