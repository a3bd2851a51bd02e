// Numbers written into a slice, the highest byte first.
ghost use Rattle.std.specs.Prelude.{◌≡◌, ◌+◌, ◌≤◌, length};
ghost use Rattle.words.specs.Words.{bytes, over};

use crate::read::be32_at;
use crate::run::copy_at;

// The four bytes of v, at `at`.
#[tactic(auto, using(crate::proofs::Stores::four_bytes))]
pub fn put32_at(s: &mut [u8], at: usize, v: u32)
    requires { at + 4 ≤ length s.old }
    ensures { s.new ≡ over s.old at (bytes 4 v) }
{
    copy_at(s, at, &v.to_be_bytes());
}

// The four bytes of v, at `at`, with no store where they stand there already: an image that stays as it is may be lent
// on pages that cannot be written.
#[tactic(auto, using(crate::proofs::Laws::put_same))]
pub fn set32_at(s: &mut [u8], at: usize, v: u32)
    requires { at + 4 ≤ length s.old }
    ensures { s.new ≡ over s.old at (bytes 4 v) }
{
    if be32_at(s, at) != v {
        put32_at(s, at, v);
    }
}
