// The view: the very part of a lent partition that holds a block. It never refuses.
#![tactic(auto)]

ghost use Rattle.std.specs.Prelude.{◌≡◌, ◌⊎◌, ◌↔◌, IsSome, IfSome, IsTrue};
ghost use Rattle.views.specs.Views.{view_of, has_view};
ghost use Rattle.image.specs.Parts.{or_empty, shown, place_of};
ghost use Rattle.views.specs.Views.{chosen, chosen_place};

use image::Part;

// The slice of partition 0 or 1; none for another number.
fn slice_of<'a>(p0: &'a [u8], p1: &'a [u8], partition: u64) -> Option<&'a [u8]>
    ensures which { IsSome result ↔ ((partition ≡ 0) ⊎ (partition ≡ 1)) }
    ensures slice { IfSome result (λ s. (s.now ≡ chosen p0.now p1.now partition)
        × (s.ref_ptr ≡ chosen_place p0.entry.ref_ptr p1.entry.ref_ptr partition)) }
{
    match partition {
        0 => Some(p0),
        1 => Some(p1),
        _ => None,
    }
}

// The part of partition 0 or 1 that holds block `object`; the empty part where there is none, or for another number.
#[tactic(auto, unfolding(crate::specs::Views::view_of))]
pub fn view<'a>(p0: &'a [u8], p1: &'a [u8], partition: u64, object: u64) -> &'a [u8]
    ensures { (result.now ≡ shown (chosen p0.now p1.now partition) (view_of p0.now p1.now partition object))
        × (result.ref_ptr ≡ place_of (chosen_place p0.entry.ref_ptr p1.entry.ref_ptr partition) (view_of p0.now p1.now partition object)) }
{
    match slice_of(p0, p1, partition) {
        Some(s) => image::block_at(s, object as usize),
        None => &p0[..0],
    }
}

// Where that part lies; none where it is empty.
#[tactic(auto, unfolding(crate::specs::Views::view_of))]
pub fn view_part(p0: &[u8], p1: &[u8], partition: u64, object: u64) -> Option<Part>
    ensures is_block { IsSome result ↔ IsTrue (has_view p0.now p1.now partition object) }
    ensures part { or_empty result ≡ view_of p0.now p1.now partition object }
{
    image::block_part(slice_of(p0, p1, partition)?, object as usize)
}
