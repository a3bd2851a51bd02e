// A sound image: lent bytes that were judged once. A clause sees it as the list of its bytes.
ghost use Rattle.std.specs.Prelude.{◌≡◌, ◌+◌, ◌^◌, ◌<◌, ◌≤◌, true, suc, List, ℕ};
ghost use Rattle.std.proofs.Math.Seq.{slice};
ghost use Rattle.image.specs.Sound.{SoundImage};
ghost use Rattle.image.specs.Image.{sound, count, protected, top_bit, entry, end_at, zone, filemarks_before};

use crate::entries;
use std::marker::Model;

#[derive(Drop)]
pub struct Image<'a> {
    bytes: &'a [u8],
    ghost is_sound: { sound bytes.now ≡ true },
}

impl<'a> Model for Image<'a> {
    ghost Value = { SoundImage };

    ghost view = { λ image. record { bytes = image.bytes.now; is_sound = image.is_sound } };
}

impl<'a> Image<'a> {
    // The image that sound bytes are. `is_sound` judges them, once a command.
    pub fn of(bytes: &'a [u8]) -> Image<'a>
        requires { sound bytes.now ≡ true }
        ensures { result.bytes ≡ bytes.now }
    {
        Image { bytes }
    }

    // N.
    pub fn count(&self) -> u32
        ensures { (result ≡ count self.now.bytes) × (result < 2 ^ 29) }
    {
        entries::count_of(self.bytes)
    }

    // Whether it is protected.
    pub fn is_protected(&self) -> bool
        ensures { result ≡ protected self.now.bytes }
    {
        entries::is_protected(self.bytes)
    }

    // Whether object i is a filemark.
    pub fn is_filemark(&self, i: usize) -> bool
        requires { i < count self.now.bytes }
        ensures { result ≡ top_bit (entry self.now.bytes i) }
    {
        entries::is_filemark(self.bytes, i)
    }

    // The bytes of block i.
    pub fn block(&self, i: u32) -> &[u8]
        requires { i < count self.now.bytes }
        ensures { result.now ≡ slice (end_at self.now.bytes i) (end_at self.now.bytes (i + 1)) self.now.bytes }
    {
        let i = i as usize;
        let from = entries::end_at(self.bytes, i) as usize;
        let to = entries::end_at(self.bytes, i + 1) as usize;
        &self.bytes[from..to]
    }

    // Whether position n is in the early-warning zone.
    pub fn in_zone(&self, n: u32) -> bool
        requires { n ≤ count self.now.bytes }
        ensures { result ≡ zone self.now.bytes n }
    {
        entries::in_zone(self.bytes, n as usize)
    }

    // How many of the first n objects are filemarks.
    pub fn filemarks_before(&self, n: u32) -> u32
        requires { n ≤ count self.now.bytes }
        ensures { result ≡ filemarks_before self.now.bytes n }
    {
        entries::filemarks_before(self.bytes, n as usize) as u32
    }
}
