// READ: one block of any length, or a run of whole blocks.
ghost use Rattle.std.specs.Prelude.{◌≡◌, false, [], ◌+◌, ◌*◌, ◌≤◌, ◌<◌, ◌^◌, length, take, drop};
ghost use Rattle.std.proofs.Math.ListN.{get_elem?};
ghost use Rattle.words.specs.Words.{over};
ghost use Rattle.image.specs.Image.{count, objects};
ghost use Rattle.codes.specs.declared.operation.Operation.TheVariants.{Read};
ghost use Rattle.codes.specs.Fields.{transfer_of};
ghost use Rattle.objects.specs.Transfer.{run_of};
ghost use Rattle.transfer.specs.Runs.{run_with};
ghost use Rattle.commands.specs.Act.{hidden, carrying, read_block, read_variable, read_run, reading};
ghost use Rattle.commands.specs.Tests.{bytes_asked, field_error};
ghost use Rattle.commands.specs.Call.{seen_of};
ghost use Rattle.deeds.specs.Left.{left_by};

use deeds::Left;
use image::Image;
use record::Drive;
use transfer::{Blocks, Ended, read_blocks};

// What a run of blocks of a partition leaves, n having been asked for: the drive behind what was crossed, and why it ended.
#[tactic(auto, unfolding(commands::specs::Act::run_tells))]
fn run_leaves(image: &Image, d: Drive, n: u32, run: Blocks, carried: u32) -> Left
    requires { d.position + run.crossed < 2 ^ 32 }
    ensures { result ≡ left_by (carrying carried (read_run d (seen_of image.now.bytes) n (run_with run []))) }
{
    let e = deeds::at(d, d.position + run.crossed);
    let blocks = run.blocks;
    match run.why {
        Ended::Whole => deeds::good(e, carried),
        // Crossed, but not among the blocks that were read.
        Ended::OddLength => deeds::checked(e, deeds::odd_met(n, blocks), carried),
        Ended::AtFilemark => deeds::checked(e, deeds::filemark_met(n, blocks), carried),
        Ended::AtEnd => deeds::checked(e, deeds::end_met(image, n, blocks), carried),
    }
}

// READ with FIXED: n blocks of the set length.
fn read_fixed(image: &Image, d: Drive, n: u32, received: &mut [u8]) -> Left
    requires { (d.position ≤ count image.now.bytes) × (1 ≤ d.block_length) × (n * d.block_length ≤ length received.old) }
    ensures { (result ≡ left_by (read_run d (seen_of image.now.bytes) n (run_of d.block_length n (drop d.position (objects image.now.bytes))))) × (received.new ≡ over received.old 0 (run_of d.block_length n (drop d.position (objects image.now.bytes))).bytes) }
{
    let run = read_blocks(image, d.position, n, d.block_length, received);
    run_leaves(image, d, n, run, run.blocks * d.block_length)
}

// Whether SILI hides that a block has this size, and not the n bytes asked for.
#[tactic(auto, unfolding(commands::specs::Act::hidden))]
fn is_hidden(d: Drive, cmd: &[u8], n: u32, size: u32) -> bool
    requires { (2 ≤ length cmd.now) × (n ≡ transfer_of cmd.now) }
    ensures { result ≡ hidden d cmd.now size }
{
    codes::sili(cmd) && (size <= n || d.block_length == 0)
}

// READ without FIXED, of n bytes, that meets this block.
fn read_block(d: Drive, cmd: &[u8], n: u32, block: &[u8], received: &mut [u8]) -> Left
    requires { (d.position + 1 < 2 ^ 32) × (2 ≤ length cmd.now) × (n ≡ transfer_of cmd.now) × (length block.now < 2 ^ 32) × (n ≤ length received.old) }
    ensures { (result ≡ left_by (read_block d cmd.now block.now)) × (received.new ≡ over received.old 0 (take n block.now)) }
{
    let size = block.len() as u32;
    let carried = words::copy_limited(received, block, n as usize) as u32;
    let e = deeds::at(d, d.position + 1);
    if size == n || is_hidden(d, cmd, n, size) {
        return deeds::good(e, carried);
    }
    deeds::checked(e, deeds::odd_met(n, size), carried)
}

// READ without FIXED, of n bytes: what lies at the position decides.
fn read_variable(image: &Image, d: Drive, cmd: &[u8], n: u32, received: &mut [u8]) -> Left
    requires { (2 ≤ length cmd.now) × (n ≡ transfer_of cmd.now) × (n ≤ length received.old) }
    ensures { (result ≡ left_by (read_variable d cmd.now (seen_of image.now.bytes) (get_elem? (objects image.now.bytes) d.position))) × (received.new ≡ over received.old 0 (read_variable d cmd.now (seen_of image.now.bytes) (get_elem? (objects image.now.bytes) d.position)).received) }
{
    let p = d.position;
    if image.count() <= p {
        return deeds::checked(d, deeds::end_met(image, n, 0), 0);
    }
    if image.is_filemark(p as usize) {
        return deeds::checked(deeds::at(d, p + 1), deeds::filemark_met(n, 0), 0);
    }
    read_block(d, cmd, n, image.block(p), received)
}

// READ at the position of a partition, with fields that are right and a receiving buffer that is long enough.
#[tactic(auto, using(words::proofs::Laws::over_nil), unfolding(commands::specs::Act::reading, commands::specs::Call::seen_of))]
pub fn read(image: &Image, d: Drive, cmd: &[u8], received: &mut [u8]) -> Left
    requires { (d.position ≤ count image.now.bytes) × (5 ≤ length cmd.now) × (field_error Read d cmd.now ≡ false) × (bytes_asked d cmd.now ≤ length received.old) }
    ensures { (result ≡ left_by (reading d cmd.now (seen_of image.now.bytes))) × (received.new ≡ over received.old 0 (reading d cmd.now (seen_of image.now.bytes)).received) }
{
    match codes::transfer(cmd) {
        0 => deeds::good(d, 0),
        n if codes::fixed(cmd) => read_fixed(image, d, n, received),
        n => read_variable(image, d, cmd, n, received),
    }
}
