// Blank and protection: the services that alter one image.
ghost use Rattle.std.specs.Prelude.{◌≡◌};
ghost use Rattle.answers.specs.Answers.{done_of, settled};
ghost use Rattle.house.specs.Images.{blank_call, protect_call};

use answers::Refusal;

// Makes a blank partition of the lent bytes, refused for a wrong length.
#[tactic(auto, using(image::proofs::Facts::right_parts), unfolding(crate::specs::Images::blank_call, answers::specs::Answers::first))]
pub fn blank(s: &mut [u8]) -> Result<(), Refusal>
    ensures { settled (done_of result) s.new ≡ blank_call s.old }
{
    if !image::has_right_length(s) {
        return Err(Refusal::WrongLength);
    }
    trailers::make_blank(s);
    Ok(())
}

// Sets or clears write protection, refused for a wrong length, then for an image that is not sound.
#[tactic(auto, using(image::proofs::Judged::fault_free), unfolding(crate::specs::Images::protect_call))]
pub fn protect(s: &mut [u8], on: bool) -> Result<(), Refusal>
    ensures { settled (done_of result) s.new ≡ protect_call on s.old }
{
    image::fault_of(s)?;
    trailers::set_protection(s, on);
    Ok(())
}
