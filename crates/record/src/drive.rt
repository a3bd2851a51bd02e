// The drive by value. The kept sense is its eighteen bytes, replaced whole by each command's sense.
use sense::SENSE_LENGTH;

#[derive(Clone, Copy, Debug, PartialEq, Eq)]
pub struct Drive {
    pub loaded: u8,
    pub partitions: u8,
    pub current: u8,
    pub attention: u8,
    pub position: u32,
    pub block_length: u32,
    pub sense: [u8; SENSE_LENGTH],
}
