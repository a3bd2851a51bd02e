// The table of masks: a constant row for each served command, the masks of its bytes 1 to 15 as documents 01 and 02 list them.
pub const WIDTH: usize = 15;

// Every bit may be set.
const FF: u8 = 0xff;

// What is not served has no masks.
pub const NO_MASKS: [u8; WIDTH] = [0; WIDTH];

// 00 TEST UNIT READY none
pub const TEST_UNIT_READY_MASKS: [u8; WIDTH] = NO_MASKS;

// 01 REWIND 1:01
pub const REWIND_MASKS: [u8; WIDTH] = [0x01, 0, 0, 0, 0, 0, 0, 0, 0, 0, 0, 0, 0, 0, 0];

// 03 REQUEST SENSE 1:01 4:FF
pub const REQUEST_SENSE_MASKS: [u8; WIDTH] = [0x01, 0, 0, FF, 0, 0, 0, 0, 0, 0, 0, 0, 0, 0, 0];

// 05 READ BLOCK LIMITS none
pub const READ_BLOCK_LIMITS_MASKS: [u8; WIDTH] = NO_MASKS;

// 08 READ 1:03 2–4:FF
pub const READ_MASKS: [u8; WIDTH] = [0x03, FF, FF, FF, 0, 0, 0, 0, 0, 0, 0, 0, 0, 0, 0];

// 0A WRITE 1:01 2–4:FF
pub const WRITE_MASKS: [u8; WIDTH] = [0x01, FF, FF, FF, 0, 0, 0, 0, 0, 0, 0, 0, 0, 0, 0];

// 10 WRITE FILEMARKS 2–4:FF
pub const WRITE_FILEMARKS_MASKS: [u8; WIDTH] = [0, FF, FF, FF, 0, 0, 0, 0, 0, 0, 0, 0, 0, 0, 0];

// 11 SPACE 1:0F 2–4:FF
pub const SPACE_MASKS: [u8; WIDTH] = [0x0f, FF, FF, FF, 0, 0, 0, 0, 0, 0, 0, 0, 0, 0, 0];

// 15 MODE SELECT 1:10 4:FF
pub const MODE_SELECT_MASKS: [u8; WIDTH] = [0x10, 0, 0, FF, 0, 0, 0, 0, 0, 0, 0, 0, 0, 0, 0];

// 19 ERASE 1:03
pub const ERASE_MASKS: [u8; WIDTH] = [0x03, 0, 0, 0, 0, 0, 0, 0, 0, 0, 0, 0, 0, 0, 0];

// 1A MODE SENSE 1:08 2:3F 4:FF
pub const MODE_SENSE_MASKS: [u8; WIDTH] = [0x08, 0x3f, 0, FF, 0, 0, 0, 0, 0, 0, 0, 0, 0, 0, 0];

// 1B LOAD UNLOAD 1:01 4:01
pub const LOAD_UNLOAD_MASKS: [u8; WIDTH] = [0x01, 0, 0, 0x01, 0, 0, 0, 0, 0, 0, 0, 0, 0, 0, 0];

// 2B LOCATE 1:03 3–6:FF 8:FF
pub const LOCATE_MASKS: [u8; WIDTH] = [0x03, 0, FF, FF, FF, FF, 0, FF, 0, 0, 0, 0, 0, 0, 0];

// 34 READ POSITION 1:1F
pub const READ_POSITION_MASKS: [u8; WIDTH] = [0x1f, 0, 0, 0, 0, 0, 0, 0, 0, 0, 0, 0, 0, 0, 0];

// 91 SPACE (16) 1:0F 4–11:FF
pub const SPACE_16_MASKS: [u8; WIDTH] = [0x0f, 0, 0, FF, FF, FF, FF, FF, FF, FF, FF, 0, 0, 0, 0];

// 92 LOCATE (16) 1:3B 3–11:FF
pub const LOCATE_16_MASKS: [u8; WIDTH] = [0x3b, 0, FF, FF, FF, FF, FF, FF, FF, FF, FF, 0, 0, 0, 0];
