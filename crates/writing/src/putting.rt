// WRITE and WRITE FILEMARKS: the objects that fit go down, and what that tells.
ghost use Rattle.std.specs.Prelude.{◌≡◌, true, false, cond, [], ◌+◌, ◌≤◌, eqb, length};
ghost use Rattle.std.proofs.Math.IntN.{sub_ℕ};
ghost use Rattle.objects.specs.Object.{largest_block};
ghost use Rattle.image.specs.Image.{count, sound, zone};
ghost use Rattle.changes.specs.Changes.{occurs};
ghost use Rattle.codes.specs.declared.operation.Operation.TheVariants.{Write, WriteFilemarks};
ghost use Rattle.commands.specs.Act.{carrying, checked, good, at, warned, overflowed, writing, marking, events_of};
ghost use Rattle.commands.specs.Tests.{bytes_asked, field_error};
ghost use Rattle.commands.specs.Call.{seen_of};
ghost use Rattle.deeds.specs.Left.{left_by};

use deeds::Left;
use record::Drive;
use transfer::{put_blocks, put_filemarks};

// Of n objects asked for, `put` went down at the position of d, and s is the partition after them: not all, all and in the zone, or all.
// Where not all went down, the residue is request - actual.
fn wrote(s: &[u8], d: Drive, n: u32, put: u32, request: u32, actual: u32, carried: u32) -> Left
    requires { (sound s.now ≡ true) × (d.position + put ≤ count s.now) }
    ensures { result ≡ left_by (carrying carried (cond (eqb put n)
        (cond (zone s.now (d.position + put)) (checked (at d (d.position + put)) warned) (good (at d (d.position + put))))
        (checked (at d (d.position + put)) (overflowed (sub_ℕ request actual))))) }
{
    let from = d.position;
    let there = from + put;
    let e = deeds::at(d, there);
    if put != n {
        return deeds::checked(e, deeds::overflowed(request, actual), carried);
    }
    if image::in_zone(s, there as usize) {
        return deeds::checked(e, deeds::warned(), carried);
    }
    deeds::good(e, carried)
}

// WRITE at the position of a sound partition, with fields that are right and as many bytes sent as it takes. A variable WRITE asks for one block
// of its length.
pub fn write(s: &mut [u8], d: Drive, cmd: &[u8], sent: &[u8]) -> Left
    requires { (sound s.old ≡ true) × (d.position ≤ count s.old) × (5 ≤ length cmd.now) × (field_error Write d cmd.now ≡ false) × (d.block_length ≤ largest_block) × (bytes_asked d cmd.now ≤ length sent.now) }
    ensures { (result ≡ left_by (writing d cmd.now sent.now (seen_of s.old))) × (s.new ≡ occurs (events_of Write d cmd.now sent.now (seen_of s.old)) s.old) }
{
    let n = codes::transfer(cmd);
    if n == 0 {
        return deeds::good(d, 0);
    }
    if codes::fixed(cmd) {
        let b = d.block_length;
        let put = put_blocks(s, d.position, n, b, sent);
        return wrote(s, d, n, put, n, put, put * b);
    }
    let put = put_blocks(s, d.position, 1, n, sent);
    wrote(s, d, 1, put, n, put * n, put * n)
}

// WRITE FILEMARKS at the position of a sound partition.
pub fn write_filemarks(s: &mut [u8], d: Drive, cmd: &[u8]) -> Left
    requires { (sound s.old ≡ true) × (d.position ≤ count s.old) × (5 ≤ length cmd.now) }
    ensures { (result ≡ left_by (marking d cmd.now [] (seen_of s.old))) × (s.new ≡ occurs (events_of WriteFilemarks d cmd.now [] (seen_of s.old)) s.old) }
{
    let marks = codes::transfer(cmd);
    if marks == 0 {
        return deeds::good(d, 0);
    }
    let put = put_filemarks(s, d.position, marks);
    wrote(s, d, marks, put, marks, put, 0)
}
