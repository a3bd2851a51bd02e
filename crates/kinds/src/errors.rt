// The field errors beyond the masks, by command; and how many bytes a transfer asks for.
ghost use Rattle.std.specs.Prelude.{◌≡◌, ◌≤◌, length};
ghost use Rattle.codes.specs.declared.operation.Operation.TheVariants.{Read, Write, Space, ModeSelect, ModeSense, ReadPosition, Locate16};
ghost use Rattle.commands.specs.Tests.{bytes_asked, field_error};

use crate::numbers::{
    ALL_PAGES, BY_END, BY_FILE, BY_OBJECT, LONG_FORM, NO_PAGE, OVER_BLOCKS, OVER_FILEMARKS,
    SHORT_FORM, TO_END,
};
use codes::Operation;
use record::Drive;

// READ: FIXED with SILI, or with block length 0.
#[tactic(auto, unfolding(commands::specs::Tests::field_error))]
fn is_read_wrong(d: Drive, cmd: &[u8]) -> bool
    requires { 5 ≤ length cmd.now }
    ensures { result ≡ field_error Read d cmd.now }
{
    codes::fixed(cmd) && (codes::sili(cmd) || d.block_length == 0)
}

// WRITE: FIXED with block length 0; or a variable length above the largest block.
#[tactic(auto, unfolding(commands::specs::Tests::field_error))]
fn is_write_wrong(d: Drive, cmd: &[u8]) -> bool
    requires { 5 ≤ length cmd.now }
    ensures { result ≡ field_error Write d cmd.now }
{
    if codes::fixed(cmd) {
        d.block_length == 0
    } else {
        objects::LARGEST_BLOCK < codes::transfer(cmd)
    }
}

// SPACE, of either length: another code than 0, 1 and 3.
#[tactic(auto, unfolding(commands::specs::Tests::field_error))]
fn is_space_wrong(d: Drive, cmd: &[u8]) -> bool
    requires { 5 ≤ length cmd.now }
    ensures { result ≡ field_error Space d cmd.now }
{
    !matches!(
        codes::space_code(cmd),
        OVER_BLOCKS | OVER_FILEMARKS | TO_END
    )
}

// MODE SELECT: PF not set.
#[tactic(auto, unfolding(commands::specs::Tests::field_error))]
fn is_select_wrong(d: Drive, cmd: &[u8]) -> bool
    requires { 5 ≤ length cmd.now }
    ensures { result ≡ field_error ModeSelect d cmd.now }
{
    !codes::pf(cmd)
}

// MODE SENSE: another page than 00h and 3Fh.
#[tactic(auto, unfolding(commands::specs::Tests::field_error))]
fn is_page_wrong(d: Drive, cmd: &[u8]) -> bool
    requires { 5 ≤ length cmd.now }
    ensures { result ≡ field_error ModeSense d cmd.now }
{
    !matches!(codes::page(cmd), NO_PAGE | ALL_PAGES)
}

// READ POSITION: another form than 00h and 06h.
#[tactic(auto, unfolding(commands::specs::Tests::field_error))]
fn is_form_wrong(d: Drive, cmd: &[u8]) -> bool
    requires { 5 ≤ length cmd.now }
    ensures { result ≡ field_error ReadPosition d cmd.now }
{
    !matches!(codes::form(cmd), SHORT_FORM | LONG_FORM)
}

// LOCATE (16): another destination than 0, 1 and 3.
#[tactic(auto, unfolding(commands::specs::Tests::field_error))]
fn is_destination_wrong(d: Drive, cmd: &[u8]) -> bool
    requires { 5 ≤ length cmd.now }
    ensures { result ≡ field_error Locate16 d cmd.now }
{
    !matches!(codes::destination(cmd), BY_OBJECT | BY_FILE | BY_END)
}

// Whether a field is wrong beyond the masks.
#[tactic(auto, unfolding(commands::specs::Tests::field_error))]
pub fn is_field_wrong(o: Operation, d: Drive, cmd: &[u8]) -> bool
    requires { 5 ≤ length cmd.now }
    ensures { result ≡ field_error o d cmd.now }
{
    match o {
        Operation::Read => is_read_wrong(d, cmd),
        Operation::Write => is_write_wrong(d, cmd),
        Operation::Space | Operation::Space16 => is_space_wrong(d, cmd),
        Operation::ModeSelect => is_select_wrong(d, cmd),
        Operation::ModeSense => is_page_wrong(d, cmd),
        Operation::ReadPosition => is_form_wrong(d, cmd),
        Operation::Locate16 => is_destination_wrong(d, cmd),
        _ => false,
    }
}

// How many bytes READ and WRITE ask for, in 64 bits.
#[tactic(auto, unfolding(commands::specs::Tests::bytes_asked))]
pub fn bytes_asked(d: Drive, cmd: &[u8]) -> u64
    requires { 5 ≤ length cmd.now }
    ensures { result ≡ bytes_asked d cmd.now }
{
    let n = u64::from(codes::transfer(cmd));
    if codes::fixed(cmd) {
        n * u64::from(d.block_length)
    } else {
        n
    }
}
