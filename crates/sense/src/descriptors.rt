// A sense in descriptor form, made from its parts by masks and shifts.
ghost use Rattle.std.specs.Prelude.{◌≡◌, true, false};
ghost use Rattle.sense.specs.Descriptors.{descriptor_bytes};

use crate::Sense;

// How many bytes it has with both descriptors, and with the stream's alone; those behind byte 7 are eight less.
pub const BOTH_LENGTH: usize = 24;

pub const STREAM_LENGTH: usize = 12;

const HEADER_LENGTH: usize = 8;

// The response code, and the types of the two descriptors.
const DESCRIPTORS: u8 = 0x72;

const INFORMATION: u8 = 0x00;

const STREAM: u8 = 0x04;

// With VALID: the information, then the stream.
#[tactic(auto, using(crate::proofs::Packing::both_written, crate::proofs::Packing::low4))]
pub fn with_information(s: Sense) -> [u8; BOTH_LENGTH]
    requires { s.valid ≡ true }
    ensures { result ≡ descriptor_bytes s }
{
    let [v0, v1, v2, v3, v4, v5, v6, v7] = words::extended(s.information).to_be_bytes();
    let flags = s.flag_bits();
    [
        DESCRIPTORS,
        s.key & 0x0f,
        s.asc,
        s.ascq,
        0,
        0,
        0,
        (BOTH_LENGTH - HEADER_LENGTH) as u8,
        INFORMATION,
        0x0a,
        0x80,
        0,
        v0,
        v1,
        v2,
        v3,
        v4,
        v5,
        v6,
        v7,
        STREAM,
        0x02,
        0,
        flags,
    ]
}

// Without: the stream alone.
#[tactic(auto, using(crate::proofs::Packing::stream_written, crate::proofs::Packing::low4))]
pub fn stream_alone(s: Sense) -> [u8; STREAM_LENGTH]
    requires { s.valid ≡ false }
    ensures { result ≡ descriptor_bytes s }
{
    let flags = s.flag_bits();
    [
        DESCRIPTORS,
        s.key & 0x0f,
        s.asc,
        s.ascq,
        0,
        0,
        0,
        (STREAM_LENGTH - HEADER_LENGTH) as u8,
        STREAM,
        0x02,
        0,
        flags,
    ]
}
