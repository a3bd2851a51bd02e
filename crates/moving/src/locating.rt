// LOCATE, of either length, on the partition that it goes to, and REWIND.
ghost use Rattle.std.specs.Prelude.{◌≡◌, false, [], ◌≤◌, pos, length};
ghost use Rattle.objects.specs.Movement.{object, file, end_of_data};
ghost use Rattle.codes.specs.declared.operation.Operation.TheVariants.{Rewind, Locate, Locate16};
ghost use Rattle.codes.specs.Fields.{object_of};
ghost use Rattle.commands.specs.Act.{carrying, checked, at_partition, end_told, target_of, destination16, locating, act};
ghost use Rattle.commands.specs.Call.{seen_of, nothing};
ghost use Rattle.deeds.specs.Left.{left_by};

use crate::counts::bounded;
use codes::Operation;
use deeds::Left;
use image::Image;
use kinds::{BY_END, BY_FILE};
use record::Drive;
use walks::{Counted, On, Why, walk_by_index};

// The drive at position n of partition k.
fn at_partition(d: Drive, k: u8, n: u32) -> Drive
    ensures { result ≡ at_partition d k n }
{
    Drive {
        current: k,
        position: n,
        ..d
    }
}

// Past what exists: 8/00/05 at n of the target.
fn stops_at(image: &Image, d: Drive, target: u8, n: u32) -> Left
    ensures { result ≡ left_by (carrying 0 (checked (at_partition d target n) (end_told false (seen_of image.now.bytes) (pos 0)))) }
{
    let told = deeds::end_told(image, false, 0, 0);
    deeds::checked(at_partition(d, target, n), told, 0)
}

// To an object of the target.
#[tactic(auto, using(crate::proofs::Located::to_object))]
fn locate_object(image: &Image, d: Drive, target: u8, n: u64) -> Left
    ensures { result ≡ left_by (locating d target (object n) (seen_of image.now.bytes)) }
{
    let count = image.count();
    if n <= u64::from(count) {
        let there = n as u32;
        return deeds::good(at_partition(d, target, there), 0);
    }
    stops_at(image, d, target, count)
}

// To a file of the target: one walk over its filemarks from the beginning.
#[tactic(auto, using(crate::proofs::Located::to_file), unfolding(commands::specs::Act::locate_tells))]
fn locate_file(image: &Image, d: Drive, target: u8, n: u64) -> Left
    ensures { result ≡ left_by (locating d target (file n) (seen_of image.now.bytes)) }
{
    let w = walk_by_index::<On>(image, 0, Counted::Filemarks, bounded(n));
    match w.why {
        // Over filemarks none is crossed that is not counted, so no walk ends at one.
        Why::Done | Why::Marked => {
            let gone = at_partition(d, target, w.crossed);
            deeds::good(gone, 0)
        }
        Why::Edge => stops_at(image, d, target, w.crossed),
    }
}

// To end of data of the target.
#[tactic(auto, using(crate::proofs::Located::to_end))]
fn locate_end(image: &Image, d: Drive, target: u8) -> Left
    ensures { result ≡ left_by (locating d target end_of_data (seen_of image.now.bytes)) }
{
    let count = image.count();
    deeds::good(at_partition(d, target, count), 0)
}

// LOCATE (10).
pub fn locate(image: &Image, d: Drive, cmd: &[u8]) -> Left
    requires { 9 ≤ length cmd.now }
    ensures { result ≡ left_by (locating d (target_of Locate d cmd.now) (object (object_of cmd.now)) (seen_of image.now.bytes)) }
{
    let target = deeds::target_of(Operation::Locate, d, cmd);
    locate_object(image, d, target, u64::from(codes::object(cmd)))
}

// LOCATE (16).
#[tactic(auto, unfolding(commands::specs::Act::destination16))]
pub fn locate16(image: &Image, d: Drive, cmd: &[u8]) -> Left
    requires { 12 ≤ length cmd.now }
    ensures { result ≡ left_by (locating d (target_of Locate16 d cmd.now) (destination16 cmd.now) (seen_of image.now.bytes)) }
{
    let target = deeds::target_of(Operation::Locate16, d, cmd);
    let n = codes::identifier(cmd);
    match codes::destination(cmd) {
        BY_FILE => locate_file(image, d, target, n),
        BY_END => locate_end(image, d, target),
        _ => locate_object(image, d, target, n),
    }
}

// REWIND.
#[tactic(auto, unfolding(commands::specs::Act::act))]
pub fn rewind(d: Drive) -> Left
    ensures { result ≡ left_by (act Rewind d [] [] nothing) }
{
    deeds::good(deeds::at(d, 0), 0)
}
