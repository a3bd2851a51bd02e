// Where a block lies in an image, and the very part that holds it.
ghost use Rattle.std.specs.Prelude.{◌≡◌, ◌+◌, ◌↔◌, IsSome, IsTrue};
ghost use Rattle.image.specs.Parts.{has_block, part_of, or_empty, shown, place_of};
ghost use Rattle.image.specs.Within.{Within};

use crate::entries::{count_of, end_at, is_filemark};
use crate::sound::is_sound;

// A part of a slice: where it starts, and its length.
#[derive(Debug, Clone, Copy, PartialEq, Eq)]
pub struct Part {
    pub start: u32,
    pub len: u32,
}

// Where block i of s lies: none where s is not sound, has no object i, or it is a filemark.
#[tactic(auto, using(crate::proofs::Lies::object_lies), unfolding(crate::specs::Parts::part_of))]
pub fn block_part(s: &[u8], i: usize) -> Option<Part>
    ensures is_block { IsSome result ↔ IsTrue (has_block s.now i) }
    ensures part { or_empty result ≡ part_of s.now i }
    ensures within { Within s.now (or_empty result) }
{
    if !is_sound(s) || count_of(s) as usize <= i || is_filemark(s, i) {
        return None;
    }
    let start = end_at(s, i);
    let end = end_at(s, i + 1);
    Some(Part {
        start,
        len: end - start,
    })
}

// The very part of s that holds block i.
pub fn block_at<'a>(s: &'a [u8], i: usize) -> &'a [u8]
    ensures { (result.now ≡ shown s.now (part_of s.now i)) × (result.ref_ptr ≡ place_of s.entry.ref_ptr (part_of s.now i)) }
{
    match block_part(s, i) {
        Some(part) => {
            let start = part.start as usize;
            &s[start..start + part.len as usize]
        }
        None => &s[..0],
    }
}
