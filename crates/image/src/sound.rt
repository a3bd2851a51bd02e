// Whether an image is sound, and the refusals 7 and 6 of an image.
ghost use Rattle.std.specs.Prelude.{◌≡◌, ◌+◌, ◌*◌, ◌^◌, ◌<◌, ◌≤◌, ◌&&◌, length, nat_le};
ghost use Rattle.objects.specs.Room.{trailer_length, entry_length};
ghost use Rattle.image.specs.Image.{end_at, follows, ordered, right_length, sound};
ghost use Rattle.image.specs.Image.{fault_of};
ghost use Rattle.answers.specs.Answers.{fault_number};

use crate::entries::{
    ENTRY, TOP, TRAILER, count_of, directory_of, end_at, end_of, entry_at, flags_of, size_of,
};
use answers::Refusal;

const LEAST_LENGTH: usize = 64;

const MOST_LENGTH: usize = 1_073_741_824;

// How many flag bits have a meaning.
const FLAG_BITS: u32 = 1;

// Whether the entry e is right after the end p, by one comparison and no branch: a filemark adds nothing to the end, a
// block one byte and up to 1,048,575 more. An end that is too low wraps to more than that.
#[tactic(auto, unfolding(crate::specs::Image::follows, crate::specs::Image::top_bit, crate::specs::Image::low31))]
fn entry_follows(p: u32, e: u32) -> bool
    requires { p < 2 ^ 31 }
    ensures { result ≡ follows p e }
{
    let block = 1 - (e >> TOP);
    let more = end_of(e).wrapping_sub(p + block);
    more <= block * (objects::LARGEST_BLOCK - 1)
}

// Whether the entries of the first n objects are right, and the last ends within d. Each entry is fetched once, and the
// end before it carried along. There is no way out of the loop but its end, so that it is compiled to vector code.
#[tactic(auto, using(crate::proofs::Facts::entry_steps), unfolding(crate::specs::Image::ordered))]
fn entries_within(s: &[u8], n: usize, d: u32) -> bool
    requires { entry_length * n + trailer_length ≤ length s.now }
    ensures { result ≡ (ordered s.now n && nat_le (end_at s.now n) d) }
{
    let mut before = end_at(s, 0);
    let mut ok = true;
    for i in 0..n {
        let e = entry_at(s, i);
        ok &= entry_follows(before, e);
        before = end_of(e);
    }
    ok & (before <= d)
}

// Whether s has a length that an image may have.
#[tactic(auto, unfolding(crate::specs::Image::right_length))]
pub fn has_right_length(s: &[u8]) -> bool
    ensures { result ≡ right_length s.now }
{
    (LEAST_LENGTH..=MOST_LENGTH).contains(&s.len())
}

// Whether s is a sound image.
#[tactic(auto, unfolding(crate::specs::Image::right_length, crate::specs::Image::sound))]
pub fn is_sound(s: &[u8]) -> bool
    ensures { result ≡ sound s.now }
{
    if !has_right_length(s) {
        return false;
    }
    let n = count_of(s) as usize;
    let d = directory_of(s);
    size_of(s) as usize == s.len()
        && flags_of(s) >> FLAG_BITS == 0
        && d as usize + ENTRY * n + TRAILER == s.len()
        && entries_within(s, n, d)
}

// The refusal of an image: for its length, then where it is not sound.
#[tactic(auto, unfolding(crate::specs::Image::fault_of, answers::specs::Answers::first))]
pub fn fault_of(s: &[u8]) -> Result<(), Refusal>
    ensures { fault_number result ≡ fault_of s.now }
{
    if !has_right_length(s) {
        return Err(Refusal::WrongLength);
    }
    if !is_sound(s) {
        return Err(Refusal::UnsoundImage);
    }
    Ok(())
}
