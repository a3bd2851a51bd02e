// The commands served: the operation code and the masks of each.
ghost use Rattle.std.specs.Prelude.{◌≡◌};
ghost use Rattle.codes.specs.Codes.{length_of, number_of, operation_of, masks_of, spread};

use crate::lengths::LENGTHS;
use crate::masks;
use crate::masks::WIDTH;

// A command by its number: its operation code; for what is not served, one that is no byte.
#[derive(Clone, Copy, Debug, PartialEq, Eq)]
pub enum Operation {
    TestUnitReady = 0x00,
    Rewind = 0x01,
    RequestSense = 0x03,
    ReadBlockLimits = 0x05,
    Read = 0x08,
    Write = 0x0a,
    WriteFilemarks = 0x10,
    Space = 0x11,
    ModeSelect = 0x15,
    Erase = 0x19,
    ModeSense = 0x1a,
    LoadUnload = 0x1b,
    Locate = 0x2b,
    ReadPosition = 0x34,
    Space16 = 0x91,
    Locate16 = 0x92,
    NotServed = 0x100,
}

// The operation code of each command served.
const TEST_UNIT_READY: u8 = Operation::TestUnitReady as u8;

const REWIND: u8 = Operation::Rewind as u8;

const REQUEST_SENSE: u8 = Operation::RequestSense as u8;

const READ_BLOCK_LIMITS: u8 = Operation::ReadBlockLimits as u8;

const READ: u8 = Operation::Read as u8;

const WRITE: u8 = Operation::Write as u8;

const WRITE_FILEMARKS: u8 = Operation::WriteFilemarks as u8;

const SPACE: u8 = Operation::Space as u8;

const MODE_SELECT: u8 = Operation::ModeSelect as u8;

const ERASE: u8 = Operation::Erase as u8;

const MODE_SENSE: u8 = Operation::ModeSense as u8;

const LOAD_UNLOAD: u8 = Operation::LoadUnload as u8;

const LOCATE: u8 = Operation::Locate as u8;

const READ_POSITION: u8 = Operation::ReadPosition as u8;

const SPACE_16: u8 = Operation::Space16 as u8;

const LOCATE_16: u8 = Operation::Locate16 as u8;

// The command of an operation code.
impl From<u8> for Operation {
    ghost from_gives = { λ op o. o ≡ operation_of op };

    fn from(op: u8) -> Operation {
        match op {
            TEST_UNIT_READY => Operation::TestUnitReady,
            REWIND => Operation::Rewind,
            REQUEST_SENSE => Operation::RequestSense,
            READ_BLOCK_LIMITS => Operation::ReadBlockLimits,
            READ => Operation::Read,
            WRITE => Operation::Write,
            WRITE_FILEMARKS => Operation::WriteFilemarks,
            SPACE => Operation::Space,
            MODE_SELECT => Operation::ModeSelect,
            ERASE => Operation::Erase,
            MODE_SENSE => Operation::ModeSense,
            LOAD_UNLOAD => Operation::LoadUnload,
            LOCATE => Operation::Locate,
            READ_POSITION => Operation::ReadPosition,
            SPACE_16 => Operation::Space16,
            LOCATE_16 => Operation::Locate16,
            _ => Operation::NotServed,
        }
    }
}

// The number of a command.
impl From<Operation> for u16 {
    ghost from_gives = { λ o n. n ≡ number_of o };

    fn from(o: Operation) -> u16 {
        o as u16
    }
}

// The length of a command block with this operation code; 0 where one byte is enough.
pub fn block_length(op: u8) -> u8
    ensures { result ≡ length_of op }
{
    LENGTHS[op as usize]
}

// The row of an operation code in the table of masks. A `match`, and no index, so that nothing builds the table on the stack.
pub fn masks_of(op: u8) -> [u8; WIDTH]
    ensures { result ≡ spread (masks_of op) }
{
    match op {
        TEST_UNIT_READY => masks::TEST_UNIT_READY_MASKS,
        REWIND => masks::REWIND_MASKS,
        REQUEST_SENSE => masks::REQUEST_SENSE_MASKS,
        READ_BLOCK_LIMITS => masks::READ_BLOCK_LIMITS_MASKS,
        READ => masks::READ_MASKS,
        WRITE => masks::WRITE_MASKS,
        WRITE_FILEMARKS => masks::WRITE_FILEMARKS_MASKS,
        SPACE => masks::SPACE_MASKS,
        MODE_SELECT => masks::MODE_SELECT_MASKS,
        ERASE => masks::ERASE_MASKS,
        MODE_SENSE => masks::MODE_SENSE_MASKS,
        LOAD_UNLOAD => masks::LOAD_UNLOAD_MASKS,
        LOCATE => masks::LOCATE_MASKS,
        READ_POSITION => masks::READ_POSITION_MASKS,
        SPACE_16 => masks::SPACE_16_MASKS,
        LOCATE_16 => masks::LOCATE_16_MASKS,
        _ => masks::NO_MASKS,
    }
}
