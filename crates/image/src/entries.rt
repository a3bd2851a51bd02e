// The trailer and the directory read: N, flags, entries, ends, kinds, room, zone.
ghost use Rattle.std.specs.Prelude.{◌≡◌, ◌+◌, ◌*◌, ◌^◌, ◌<◌, ◌≤◌, length};
ghost use Rattle.objects.specs.Room.{trailer_length, entry_length};
ghost use Rattle.image.specs.Image.{most_length, count, flags, directory, size, protected, entry, top_bit, low31, end_at};
ghost use Rattle.image.specs.Image.{room, fits, zone, filemarks_before};

use words::be32_at;

// The trailer's length, and how far from the image's end its fields stand: N at its start, then flags, D, L.
pub const TRAILER: usize = 16;

pub const FLAGS: usize = 12;

pub const DIRECTORY: usize = 8;

pub const SIZE: usize = 4;

// An entry's length; its top bit, where that stands, and the bits below it.
pub const ENTRY: usize = 4;

pub const FILEMARK: u32 = 0x8000_0000;

pub const TOP: u32 = 31;

const END: u32 = 0x7fff_ffff;

// The share of the image that the early warning leaves.
const WARNING_SHARE: usize = 16;

// N.
#[tactic(auto, unfolding(crate::specs::Image::count))]
pub fn count_of(s: &[u8]) -> u32
    requires { trailer_length ≤ length s.now }
    ensures { result ≡ count s.now }
{
    be32_at(s, s.len() - TRAILER)
}

// The flags.
#[tactic(auto, unfolding(crate::specs::Image::flags))]
pub fn flags_of(s: &[u8]) -> u32
    requires { trailer_length ≤ length s.now }
    ensures { result ≡ flags s.now }
{
    be32_at(s, s.len() - FLAGS)
}

// D, the directory's start.
#[tactic(auto, unfolding(crate::specs::Image::directory))]
pub fn directory_of(s: &[u8]) -> u32
    requires { trailer_length ≤ length s.now }
    ensures { result ≡ directory s.now }
{
    be32_at(s, s.len() - DIRECTORY)
}

// L, as the trailer has it.
#[tactic(auto, unfolding(crate::specs::Image::size))]
pub fn size_of(s: &[u8]) -> u32
    requires { trailer_length ≤ length s.now }
    ensures { result ≡ size s.now }
{
    be32_at(s, s.len() - SIZE)
}

// Whether it is protected: flag bit 0.
#[tactic(auto, unfolding(crate::specs::Image::protected))]
pub fn is_protected(s: &[u8]) -> bool
    requires { trailer_length ≤ length s.now }
    ensures { result ≡ protected s.now }
{
    flags_of(s) % 2 == 1
}

// The entry of object i.
#[tactic(auto, unfolding(crate::specs::Image::entry))]
pub fn entry_at(s: &[u8], i: usize) -> u32
    requires { entry_length * (i + 1) + trailer_length ≤ length s.now }
    ensures { result ≡ entry s.now i }
{
    be32_at(s, s.len() - TRAILER - ENTRY * (i + 1))
}

// An entry's low 31 bits: the end of its object's data.
#[tactic(auto, unfolding(crate::specs::Image::low31))]
pub fn end_of(e: u32) -> u32
    ensures { result ≡ low31 e }
{
    e & END
}

// An entry's top bit: a filemark.
#[tactic(auto, unfolding(crate::specs::Image::top_bit))]
pub fn marks(e: u32) -> bool
    ensures { result ≡ top_bit e }
{
    e >> TOP == 1
}

// The end of object n - 1; 0 at n = 0.
#[tactic(auto, using(crate::proofs::Facts::end_before, crate::proofs::Facts::end_lt), unfolding(crate::specs::Image::end_at))]
pub fn end_at(s: &[u8], n: usize) -> u32
    requires { entry_length * n + trailer_length ≤ length s.now }
    ensures { (result ≡ end_at s.now n) × (result < 2 ^ 31) }
{
    if n == 0 {
        0
    } else {
        end_of(entry_at(s, n - 1))
    }
}

// Whether object i is a filemark.
pub fn is_filemark(s: &[u8], i: usize) -> bool
    requires { entry_length * (i + 1) + trailer_length ≤ length s.now }
    ensures { result ≡ top_bit (entry s.now i) }
{
    marks(entry_at(s, i))
}

// The room at n.
#[tactic(auto, unfolding(crate::specs::Image::room, crate::specs::Image::used))]
pub fn room_at(s: &[u8], n: usize) -> usize
    requires { entry_length * n + trailer_length ≤ length s.now }
    ensures { result ≡ room s.now n }
{
    let used = ENTRY * n + end_at(s, n) as usize;
    (s.len() - TRAILER).saturating_sub(used)
}

// Whether an object with k bytes of data fits at number n, by the room there.
#[tactic(auto, unfolding(crate::specs::Image::fits))]
pub fn object_fits(s: &[u8], n: usize, k: usize) -> bool
    requires { entry_length * n + trailer_length ≤ length s.now }
    ensures { result ≡ fits s.now n k }
{
    let room = room_at(s, n);
    ENTRY <= room && k <= room - ENTRY
}

// Whether position n is in the early-warning zone.
#[tactic(auto, unfolding(crate::specs::Image::zone, crate::specs::Image::room))]
pub fn in_zone(s: &[u8], n: usize) -> bool
    requires { (entry_length * n + trailer_length ≤ length s.now) × (length s.now ≤ most_length) }
    ensures { result ≡ zone s.now n }
{
    room_at(s, n) * WARNING_SHARE < s.len() - TRAILER
}

// How many of the first n objects are filemarks.
pub fn filemarks_before(s: &[u8], n: usize) -> usize
    requires { entry_length * n + trailer_length ≤ length s.now }
    ensures { result ≡ filemarks_before s.now n }
{
    (0..n).map(|i| usize::from(is_filemark(s, i))).sum()
}
