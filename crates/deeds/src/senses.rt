// The senses of a command that reports its residue, each told once: what it met, or what it could not put.
ghost use Rattle.std.specs.Prelude.{◌≡◌, ℤ};
ghost use Rattle.std.proofs.Math.IntN.{sub_ℕ};
ghost use Rattle.sense.specs.Sense.{Shows};
ghost use Rattle.commands.specs.Act.{eom_at_end, end_told, end_met, filemark_met, odd_met, beginning_met};
ghost use Rattle.commands.specs.Act.{warned, overflowed};
ghost use Rattle.commands.specs.Call.{seen_of};

use image::Image;
use sense::{Code, Flags, Residue, Sense, residue_of};

// A filemark met: 0/00/01, FILEMARK; by its residue, and by a request and an actual that are not below zero.
pub fn filemark_told(residue: Residue) -> Sense
    ensures { (z : ℤ) → Shows residue z → result ≡ filemark_met z }
{
    sense::told(true, Flags::FILEMARK, Code::FILEMARK_DETECTED, residue)
}

pub fn filemark_met(request: u32, actual: u32) -> Sense
    ensures { result ≡ filemark_met (sub_ℕ request actual) }
{
    filemark_told(residue_of(request, actual))
}

// A block of another length: 0/00/00, ILI.
pub fn odd_met(request: u32, actual: u32) -> Sense
    ensures { result ≡ odd_met (sub_ℕ request actual) }
{
    sense::told(
        true,
        Flags::ILI,
        Code::NO_ADDITIONAL,
        residue_of(request, actual),
    )
}

// The beginning met: 0/00/04, EOM.
pub fn beginning_met(residue: Residue) -> Sense
    ensures { (z : ℤ) → Shows residue z → result ≡ beginning_met z }
{
    sense::told(true, Flags::EOM, Code::BEGINNING_OF_PARTITION, residue)
}

// EOM at end of data of a partition: whether position N is in the zone.
fn eom_at_end(image: &Image) -> bool
    ensures { result ≡ eom_at_end (seen_of image.now.bytes) }
{
    image.in_zone(image.count())
}

// End of data of a partition: 8/00/05, by a command that counts or not.
pub fn end_told(image: &Image, counts: bool, request: u32, actual: u32) -> Sense
    ensures { result ≡ end_told counts (seen_of image.now.bytes) (sub_ℕ request actual) }
{
    let flags = Flags {
        eom: eom_at_end(image),
        ..Flags::NONE
    };
    sense::told(
        counts,
        flags,
        Code::END_OF_DATA,
        residue_of(request, actual),
    )
}

// End of data, by a command that counts.
pub fn end_met(image: &Image, request: u32, actual: u32) -> Sense
    ensures { result ≡ end_met (seen_of image.now.bytes) (sub_ℕ request actual) }
{
    end_told(image, true, request, actual)
}

// All put, and the new position in the zone: 0/00/02, EOM, information 0.
pub fn warned() -> Sense
    ensures { result ≡ warned }
{
    sense::told(true, Flags::EOM, Code::END_OF_PARTITION, residue_of(0, 0))
}

// Not all put: D/00/02, EOM.
pub fn overflowed(request: u32, actual: u32) -> Sense
    ensures { result ≡ overflowed (sub_ℕ request actual) }
{
    sense::told(
        true,
        Flags::EOM,
        Code::VOLUME_OVERFLOW,
        residue_of(request, actual),
    )
}
