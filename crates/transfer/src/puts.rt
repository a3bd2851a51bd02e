// Objects put one after another into an image, while each fits.
ghost use Rattle.std.specs.Prelude.{◌≡◌, true, ◌*◌, ◌≤◌, List, length};
ghost use Rattle.std.specs.Iterator.{IsFinite};
ghost use Rattle.objects.specs.Object as O;
ghost use Rattle.objects.specs.Object.{largest_block};
ghost use Rattle.objects.specs.Transfer.{blocks_of, marks_of, fitting, put_from};
ghost use Rattle.image.specs.Image.{count, sound, end_at};
ghost use Rattle.changes.specs.Changes.{occurs};
ghost use Rattle.transfer.specs.Offers.{Offers};

use changes::Object;
use std::iter::repeat_n;

// Puts the objects from number p on, while each fits; answers how many went down.
fn put_objects<'a, I: Iterator<Item = Object<'a>> + Drop>(s: &mut [u8], p: u32, objects: I) -> u32
    requires image { (sound s.old ≡ true) × (p ≤ count s.old) }
    requires ends { I.can_next objects × IsFinite (I.remaining objects) }
    requires offers { (list : List O.Object) × Offers I.next_gives objects list }
    ensures { (list : List O.Object) → Offers I.next_gives objects list
        → (s.new ≡ occurs (put_from p (fitting (length s.old) p (end_at s.old p) list)) s.old)
        × (result ≡ length (fitting (length s.old) p (end_at s.old p) list)) }
{
    let mut done = 0;
    for object in objects {
        let at = (p + done) as usize;
        if !image::object_fits(s, at, object.len()) {
            break;
        }
        changes::put(s, at, object);
        done += 1;
    }
    done
}

// Puts n filemarks from number p on, while each fits; answers how many went down.
pub fn put_filemarks(s: &mut [u8], p: u32, n: u32) -> u32
    requires { (sound s.old ≡ true) × (p ≤ count s.old) }
    ensures { (s.new ≡ occurs (put_from p (fitting (length s.old) p (end_at s.old p) (marks_of n))) s.old) × (result ≡ length (fitting (length s.old) p (end_at s.old p) (marks_of n))) }
{
    put_objects(s, p, repeat_n(Object::Filemark, n as usize))
}

// Puts n blocks of b bytes each from number p on, from the bytes sent, while each fits; answers how many went down. Out of line,
// so that its loop has the registers to itself.
#[inline(never)]
pub fn put_blocks(s: &mut [u8], p: u32, n: u32, b: u32, sent: &[u8]) -> u32
    requires { (sound s.old ≡ true) × (p ≤ count s.old) × (1 ≤ b) × (b ≤ largest_block) × (n * b ≤ length sent.now) }
    ensures { (s.new ≡ occurs (put_from p (fitting (length s.old) p (end_at s.old p) (blocks_of b n sent.now))) s.old) × (result ≡ length (fitting (length s.old) p (end_at s.old p) (blocks_of b n sent.now))) }
{
    let blocks = sent[..n as usize * b as usize].chunks_exact(b as usize);
    put_objects(s, p, blocks.map(Object::Block))
}
