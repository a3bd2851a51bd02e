// A run of whole blocks read from an image, one behind the other.
ghost use Rattle.std.specs.Prelude.{◌≡◌, ◌*◌, ◌≤◌, length, drop};
ghost use Rattle.words.specs.Words.{over};
ghost use Rattle.objects.specs.Transfer.{run_of};
ghost use Rattle.image.specs.Image.{count, objects};
ghost use Rattle.transfer.specs.Runs.{run_with};

use image::Image;

// Why a run of blocks ends: all were read, one had another length, a filemark, end of data.
#[derive(Clone, Copy, Debug, PartialEq, Eq)]
pub enum Ended {
    Whole,
    OddLength,
    AtFilemark,
    AtEnd,
}

// How many whole blocks were read, how many objects were crossed, and why the run ended.
#[derive(Clone, Copy, Debug, PartialEq, Eq)]
pub struct Blocks {
    pub blocks: u32,
    pub crossed: u32,
    pub why: Ended,
}

// Reads n blocks of b bytes each from number p on, one behind the other from the start of `received`. Out of line, so that its
// loop has the registers to itself.
#[inline(never)]
pub fn read_blocks(image: &Image, p: u32, n: u32, b: u32, received: &mut [u8]) -> Blocks
    requires { (p ≤ count image.now.bytes) × (1 ≤ b) × (n * b ≤ length received.old) }
    ensures { (run_with result (run_of b n (drop p (objects image.now.bytes))).bytes ≡ run_of b n (drop p (objects image.now.bytes)))
        × (received.new ≡ over received.old 0 (run_of b n (drop p (objects image.now.bytes))).bytes) }
{
    let count = image.count();
    for done in 0..n {
        let at = p + done;
        if count <= at {
            return Blocks {
                blocks: done,
                crossed: done,
                why: Ended::AtEnd,
            };
        }
        if image.is_filemark(at as usize) {
            return Blocks {
                blocks: done,
                crossed: done + 1,
                why: Ended::AtFilemark,
            };
        }
        let block = image.block(at);
        if block.len() != b as usize {
            return Blocks {
                blocks: done,
                crossed: done + 1,
                why: Ended::OddLength,
            };
        }
        let place = done as usize * b as usize;
        words::copy_at(received, place, block);
    }
    Blocks {
        blocks: n,
        crossed: n,
        why: Ended::Whole,
    }
}
