// What protection and blanking write into the trailer.
#![tactic(auto)]

ghost use Rattle.std.specs.Prelude.{◌≡◌, ◌≤◌, length};
ghost use Rattle.objects.specs.Room.{trailer_length};
ghost use Rattle.image.specs.Image.{least_length, most_length};
ghost use Rattle.trailers.specs.Trailers.{protect, blank};

use changes::retitle;
use image::{FLAGS, SIZE, flags_of};
use words::set32_at;

// Sets or clears flag bit 0, and leaves the other bits.
pub fn set_protection(s: &mut [u8], on: bool)
    requires { trailer_length ≤ length s.old }
    ensures { s.new ≡ protect on s.old }
{
    let flags = flags_of(s);
    let at = s.len() - FLAGS;
    set32_at(s, at, (flags >> 1 << 1) | on as u32);
}

// Makes s a blank image.
pub fn make_blank(s: &mut [u8])
    requires { (least_length ≤ length s.old) × (length s.old ≤ most_length) }
    ensures { s.new ≡ blank s.old }
{
    let len = s.len();
    retitle(s, 0);
    set32_at(s, len - FLAGS, 0);
    set32_at(s, len - SIZE, len as u32);
}
