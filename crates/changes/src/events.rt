// What an event writes into an image: objects put, cuts, and what a cut leaves free cleared.
ghost use Rattle.std.specs.Prelude.{◌≡◌, true, ◌+◌, ◌*◌, ◌≤◌, length};
ghost use Rattle.objects.specs.Object.{data_of};
ghost use Rattle.objects.specs.Events.{put};
ghost use Rattle.objects.specs.Events.{cut};
ghost use Rattle.objects.specs.Room.{trailer_length, entry_length};
ghost use Rattle.image.specs.Image.{most_length, count, sound, fits};
ghost use Rattle.changes.specs.Changes.{retitle, occur, cleared};
ghost use Rattle.changes.specs.Object.{object_of};

use image::{DIRECTORY, ENTRY, FILEMARK, TRAILER, count_of, end_at};
use words::{be32_at, clear_at, copy_at, put32_at, set32_at};

// Sets N and D for n objects.
#[tactic(auto, unfolding(crate::specs::Changes::retitle))]
pub fn retitle(s: &mut [u8], n: usize)
    requires { (entry_length * n + trailer_length ≤ length s.old) × (length s.old ≤ most_length) }
    ensures { s.new ≡ retitle (length s.old) n s.old }
{
    let len = s.len();
    set32_at(s, len - TRAILER, n as u32);
    set32_at(s, len - DIRECTORY, (len - TRAILER - ENTRY * n) as u32);
}

// An object to put: a filemark, or a block of these bytes.
#[derive(Clone, Copy, Debug, PartialEq, Eq)]
pub enum Object<'a> {
    Filemark,
    Block(&'a [u8]),
}

impl Object<'_> {
    // How many bytes of data it has: a filemark has none.
    pub fn len(&self) -> usize
        ensures { result ≡ length (data_of (object_of self.now)) }
    {
        match self {
            Object::Filemark => 0,
            Object::Block(bytes) => bytes.len(),
        }
    }
}

// Puts the object at number n; the objects from there on are gone.
#[tactic(auto, using(image::proofs::Facts::fits_room))]
pub fn put(s: &mut [u8], n: usize, object: Object)
    requires { (fits s.old n (length (data_of (object_of object))) ≡ true)
        × (entry_length * n + trailer_length ≤ length s.old) × (length s.old ≤ most_length) }
    ensures { s.new ≡ occur (put n (object_of object.entry)) s.old }
{
    let from = end_at(s, n);
    let place = s.len() - TRAILER - ENTRY * (n + 1);
    let entry = match object {
        Object::Filemark => from | FILEMARK,
        Object::Block(bytes) => {
            copy_at(s, from as usize, bytes);
            from + bytes.len() as u32
        }
    };
    put32_at(s, place, entry);
    retitle(s, n + 1);
}

// Erases from number n on.
#[tactic(auto, unfolding(crate::specs::Changes::occur))]
pub fn cut(s: &mut [u8], n: usize)
    requires { (entry_length * n + trailer_length ≤ length s.old) × (length s.old ≤ most_length) }
    ensures { s.new ≡ occur (cut n) s.old }
{
    retitle(s, n);
}

// Zeroes what lies between the data and the directory.
#[tactic(auto, using(image::proofs::Facts::sound_parts), unfolding(crate::specs::Changes::cleared, image::specs::Image::directory))]
fn clear(s: &mut [u8])
    requires { sound s.old ≡ true }
    ensures { s.new ≡ cleared s.old }
{
    let from = end_at(s, count_of(s) as usize) as usize;
    let to = be32_at(s, s.len() - DIRECTORY) as usize;
    clear_at(s, from, to);
}

// Erases from number n on, and zeroes what is then free.
#[tactic(auto, using(image::proofs::Facts::sound_parts))]
pub fn cut_clearing(s: &mut [u8], n: usize)
    requires { (sound s.old ≡ true) × (n ≤ count s.old) }
    ensures { s.new ≡ cleared (occur (cut n) s.old) }
{
    cut(s, n);
    clear(s);
}
