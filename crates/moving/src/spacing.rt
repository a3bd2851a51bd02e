// SPACE, of either length: the walk over blocks or filemarks, where it ends, what it tells, and how many objects it crossed.
ghost use Rattle.std.specs.Prelude.{◌≡◌, cond, ◌≤◌, ◌<◌, eqb, pos, neg_ℤ, ◌-ℤ◌, length};
ghost use Rattle.objects.specs.Movement.{blocks, filemarks, space};
ghost use Rattle.image.specs.Image.{count, objects};
ghost use Rattle.sense.specs.Sense.{Shows};
ghost use Rattle.codes.specs.Fields.{space_code_of, space_count_of, space_count16_of};
ghost use Rattle.walks.specs.Walks.{code_of};
ghost use Rattle.commands.specs.Act.{carrying, good, checked, moved, over_blocks, spacing};
ghost use Rattle.commands.specs.Call.{seen_of};
ghost use Rattle.deeds.specs.Left.{left_by, left_crossing};

use crate::counts::bounded;
use deeds::Left;
use image::Image;
use kinds::{OVER_BLOCKS, TO_END};
use record::Drive;
use sense::{PAST_32_BITS, Residue, Sense};
use walks::{Back, Counted, On, Why, walk_by_index};

// GOOD there, with so many objects crossed.
fn reaches(there: Drive, crossed: u32) -> Left
    ensures { result ≡ left_crossing crossed (left_by (carrying 0 (good there))) }
{
    deeds::crossing(deeds::good(there, 0), crossed)
}

// CHECK CONDITION there, with this sense and so many objects crossed.
fn halts(there: Drive, told: Sense, crossed: u32) -> Left
    ensures { result ≡ left_crossing crossed (left_by (carrying 0 (checked there told))) }
{
    deeds::crossing(deeds::checked(there, told, 0), crossed)
}

// SPACE by the count n: the residue is n - counted.
#[tactic(auto, using(crate::proofs::Spaced::going_on))]
fn space_on(image: &Image, d: Drive, what: Counted, n: u32) -> Left
    requires { d.position ≤ count image.now.bytes }
    ensures { result ≡ left_by (moved d (seen_of image.now.bytes) (pos n) (space (code_of what) (pos n) d.position (objects image.now.bytes))) }
{
    let w = walk_by_index::<On>(image, d.position, what, n);
    let gone = deeds::at(d, d.position + w.crossed);
    match w.why {
        Why::Done => reaches(gone, w.crossed),
        Why::Marked => halts(gone, deeds::filemark_met(n, w.counted), w.crossed),
        Why::Edge => halts(gone, deeds::end_met(image, n, w.counted), w.crossed),
    }
}

// The residue of a SPACE by the count -n: -n less -counted, each in two's complement.
#[tactic(auto, using(crate::proofs::Spaced::shown_back))]
fn residue_back(n: u32, counted: u32) -> Residue
    requires { counted ≤ n }
    ensures { Shows result (neg_ℤ (pos n) -ℤ neg_ℤ (pos counted)) }
{
    let fits = n - counted <= PAST_32_BITS;
    let request = words::difference(0, n);
    let actual = words::difference(0, counted);
    let bits = words::difference(request, actual);
    if fits { Ok(bits) } else { Err(bits) }
}

// SPACE by the count -n.
#[tactic(auto, using(crate::proofs::Spaced::going_back))]
fn space_back(image: &Image, d: Drive, what: Counted, n: u32) -> Left
    requires { (d.position ≤ count image.now.bytes) × (0 < n) }
    ensures { result ≡ left_by (moved d (seen_of image.now.bytes) (neg_ℤ (pos n)) (space (code_of what) (neg_ℤ (pos n)) d.position (objects image.now.bytes))) }
{
    let w = walk_by_index::<Back>(image, d.position, what, n);
    let gone = deeds::at(d, d.position - w.crossed);
    let rest = residue_back(n, w.counted);
    match w.why {
        Why::Done => reaches(gone, w.crossed),
        Why::Marked => halts(gone, deeds::filemark_told(rest), w.crossed),
        Why::Edge => halts(gone, deeds::beginning_met(rest), w.crossed),
    }
}

// What the code counts, where it is not "to end of data".
fn counted_by(code: u8) -> Counted
    ensures { code_of result ≡ cond (eqb code over_blocks) blocks filemarks }
{
    if code == OVER_BLOCKS {
        Counted::Blocks
    } else {
        Counted::Filemarks
    }
}

// SPACE by a code and a count, at the position of a partition.
#[tactic(auto, using(crate::proofs::Spaced::going_by))]
fn space_by(image: &Image, d: Drive, code: u8, steps: i64) -> Left
    requires { d.position ≤ count image.now.bytes }
    ensures { result ≡ left_by (spacing d code steps (seen_of image.now.bytes)) }
{
    if code == TO_END {
        let end = image.count();
        return reaches(deeds::at(d, end), end - d.position);
    }
    let what = counted_by(code);
    let n = bounded(steps.unsigned_abs());
    if steps < 0 {
        return space_back(image, d, what, n);
    }
    space_on(image, d, what, n)
}

// SPACE (6).
pub fn space(image: &Image, d: Drive, cmd: &[u8]) -> Left
    requires { (d.position ≤ count image.now.bytes) × (5 ≤ length cmd.now) }
    ensures { result ≡ left_by (spacing d (space_code_of cmd.now) (space_count_of cmd.now) (seen_of image.now.bytes)) }
{
    space_by(image, d, codes::space_code(cmd), codes::space_count(cmd))
}

// SPACE (16): another decoder of the count.
pub fn space16(image: &Image, d: Drive, cmd: &[u8]) -> Left
    requires { (d.position ≤ count image.now.bytes) × (12 ≤ length cmd.now) }
    ensures { result ≡ left_by (spacing d (space_code_of cmd.now) (space_count16_of cmd.now) (seen_of image.now.bytes)) }
{
    space_by(image, d, codes::space_code(cmd), codes::space_count16(cmd))
}
