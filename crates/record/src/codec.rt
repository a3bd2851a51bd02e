// Thirty bytes as a drive, and back.
ghost use Rattle.std.specs.Prelude.{◌≡◌, ◌≤◌, length, take, drop};
ghost use Rattle.sense.specs.Sense.{sense_length};
ghost use Rattle.record.specs.Record.{record_length, sense_at, decode_of, encode_of, well_record};

use crate::drive::Drive;
use crate::states::is_well_formed;
use words::{array_at, be32_at, copy_at, put32_at};

pub const RECORD_LENGTH: usize = 30;

// Where each field starts.
pub const LOADED: usize = 0;

const PARTITIONS: usize = 1;

const CURRENT: usize = 2;

const ATTENTION: usize = 3;

const POSITION: usize = 4;

const BLOCK_LENGTH: usize = 8;

const SENSE: usize = 12;

// The drive that a record of thirty bytes stands for.
#[tactic(auto, using(crate::proofs::RoundTrip::decoded))]
pub fn decode(s: &[u8]) -> Drive
    requires { length s.now ≡ record_length }
    ensures { result ≡ decode_of s.now }
{
    Drive {
        loaded: s[LOADED],
        partitions: s[PARTITIONS],
        current: s[CURRENT],
        attention: s[ATTENTION],
        position: be32_at(s, POSITION),
        block_length: be32_at(s, BLOCK_LENGTH),
        sense: array_at(s, SENSE),
    }
}

// The record of a drive, into thirty bytes.
pub fn encode(d: Drive, out: &mut [u8])
    requires { length out.old ≡ record_length }
    ensures { out.new ≡ encode_of d }
{
    let head = [d.loaded, d.partitions, d.current, d.attention];
    copy_at(out, LOADED, &head);
    put32_at(out, POSITION, d.position);
    put32_at(out, BLOCK_LENGTH, d.block_length);
    copy_at(out, SENSE, &d.sense);
}

// Whether s is a record: thirty bytes, and well formed.
#[tactic(auto, unfolding(crate::specs::Record::well_record))]
pub fn is_record(s: &[u8]) -> bool
    ensures { result ≡ well_record s.now }
{
    s.len() == RECORD_LENGTH && is_well_formed(decode(s))
}
