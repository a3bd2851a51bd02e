// The fields of a command block, read by masks and shifts.
ghost use Rattle.std.specs.Prelude.{◌≡◌, ◌≤◌, length};
ghost use Rattle.codes.specs.Fields.{fixed_of, sili_of, transfer_of, space_code_of, space_count_of, space_count16_of, long_of, changes_partition, object_of, partition_of, destination_of, partition16_of, identifier_of, load_of, form_of, dbd_of, page_of, pf_of, asks_descriptors, allocation_of};

use words::{be24_at, be32_at, be64_at, signed24, signed64};

// FIXED, of READ and WRITE.
#[tactic(auto, unfolding(crate::specs::Fields::fixed_of))]
pub fn fixed(cmd: &[u8]) -> bool
    requires { 2 ≤ length cmd.now }
    ensures { result ≡ fixed_of cmd.now }
{
    cmd[1] & 0x01 != 0
}

// SILI, of READ.
#[tactic(auto, using(crate::proofs::Flags::flags), unfolding(crate::specs::Fields::sili_of))]
pub fn sili(cmd: &[u8]) -> bool
    requires { 2 ≤ length cmd.now }
    ensures { result ≡ sili_of cmd.now }
{
    cmd[1] & 0x02 != 0
}

// The length of READ and WRITE, and the count of WRITE FILEMARKS.
#[tactic(auto, unfolding(crate::specs::Fields::transfer_of))]
pub fn transfer(cmd: &[u8]) -> u32
    requires { 5 ≤ length cmd.now }
    ensures { result ≡ transfer_of cmd.now }
{
    be24_at(cmd, 2)
}

// What SPACE counts.
#[tactic(auto, unfolding(crate::specs::Fields::space_code_of))]
pub fn space_code(cmd: &[u8]) -> u8
    requires { 2 ≤ length cmd.now }
    ensures { result ≡ space_code_of cmd.now }
{
    cmd[1] & 0x0f
}

// The count of SPACE.
#[tactic(auto, unfolding(crate::specs::Fields::space_count_of))]
pub fn space_count(cmd: &[u8]) -> i64
    requires { 5 ≤ length cmd.now }
    ensures { result ≡ space_count_of cmd.now }
{
    signed24(be24_at(cmd, 2))
}

// The count of SPACE (16).
#[tactic(auto, unfolding(crate::specs::Fields::space_count16_of))]
pub fn space_count16(cmd: &[u8]) -> i64
    requires { 12 ≤ length cmd.now }
    ensures { result ≡ space_count16_of cmd.now }
{
    signed64(be64_at(cmd, 4))
}

// LONG, of ERASE.
#[tactic(auto, unfolding(crate::specs::Fields::long_of))]
pub fn long(cmd: &[u8]) -> bool
    requires { 2 ≤ length cmd.now }
    ensures { result ≡ long_of cmd.now }
{
    cmd[1] & 0x01 != 0
}

// CP, of LOCATE.
#[tactic(auto, using(crate::proofs::Flags::flags), unfolding(crate::specs::Fields::changes_partition))]
pub fn changes_partition(cmd: &[u8]) -> bool
    requires { 2 ≤ length cmd.now }
    ensures { result ≡ changes_partition cmd.now }
{
    cmd[1] & 0x02 != 0
}

// The object of LOCATE.
#[tactic(auto, unfolding(crate::specs::Fields::object_of))]
pub fn object(cmd: &[u8]) -> u32
    requires { 7 ≤ length cmd.now }
    ensures { result ≡ object_of cmd.now }
{
    be32_at(cmd, 3)
}

// The partition of LOCATE.
#[tactic(auto, unfolding(crate::specs::Fields::partition_of))]
pub fn partition(cmd: &[u8]) -> u8
    requires { 9 ≤ length cmd.now }
    ensures { result ≡ partition_of cmd.now }
{
    cmd[8]
}

// The destination of LOCATE (16).
#[tactic(auto, unfolding(crate::specs::Fields::destination_of))]
pub fn destination(cmd: &[u8]) -> u8
    requires { 2 ≤ length cmd.now }
    ensures { result ≡ destination_of cmd.now }
{
    cmd[1] >> 3 & 0x07
}

// The partition of LOCATE (16).
#[tactic(auto, unfolding(crate::specs::Fields::partition16_of))]
pub fn partition16(cmd: &[u8]) -> u8
    requires { 4 ≤ length cmd.now }
    ensures { result ≡ partition16_of cmd.now }
{
    cmd[3]
}

// The identifier of LOCATE (16).
#[tactic(auto, unfolding(crate::specs::Fields::identifier_of))]
pub fn identifier(cmd: &[u8]) -> u64
    requires { 12 ≤ length cmd.now }
    ensures { result ≡ identifier_of cmd.now }
{
    be64_at(cmd, 4)
}

// LOAD, of LOAD UNLOAD.
#[tactic(auto, unfolding(crate::specs::Fields::load_of))]
pub fn load(cmd: &[u8]) -> bool
    requires { 5 ≤ length cmd.now }
    ensures { result ≡ load_of cmd.now }
{
    cmd[4] & 0x01 != 0
}

// The form of READ POSITION.
#[tactic(auto, unfolding(crate::specs::Fields::form_of))]
pub fn form(cmd: &[u8]) -> u8
    requires { 2 ≤ length cmd.now }
    ensures { result ≡ form_of cmd.now }
{
    cmd[1] & 0x1f
}

// DBD, of MODE SENSE.
#[tactic(auto, using(crate::proofs::Flags::flags), unfolding(crate::specs::Fields::dbd_of))]
pub fn dbd(cmd: &[u8]) -> bool
    requires { 2 ≤ length cmd.now }
    ensures { result ≡ dbd_of cmd.now }
{
    cmd[1] & 0x08 != 0
}

// The page of MODE SENSE.
#[tactic(auto, unfolding(crate::specs::Fields::page_of))]
pub fn page(cmd: &[u8]) -> u8
    requires { 3 ≤ length cmd.now }
    ensures { result ≡ page_of cmd.now }
{
    cmd[2] & 0x3f
}

// PF, of MODE SELECT.
#[tactic(auto, using(crate::proofs::Flags::flags), unfolding(crate::specs::Fields::pf_of))]
pub fn pf(cmd: &[u8]) -> bool
    requires { 2 ≤ length cmd.now }
    ensures { result ≡ pf_of cmd.now }
{
    cmd[1] & 0x10 != 0
}

// The bit of REQUEST SENSE that asks for the sense in descriptor form.
#[tactic(auto, unfolding(crate::specs::Fields::asks_descriptors))]
pub fn asks_descriptors(cmd: &[u8]) -> bool
    requires { 2 ≤ length cmd.now }
    ensures { result ≡ asks_descriptors cmd.now }
{
    cmd[1] & 0x01 != 0
}

// The allocation of REQUEST SENSE and MODE SENSE, and the list length of MODE SELECT.
#[tactic(auto, unfolding(crate::specs::Fields::allocation_of))]
pub fn allocation(cmd: &[u8]) -> u8
    requires { 5 ≤ length cmd.now }
    ensures { result ≡ allocation_of cmd.now }
{
    cmd[4]
}
