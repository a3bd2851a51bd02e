// Runs of bytes: one laid over a part of a slice, and a part zeroed.
ghost use Rattle.std.specs.Prelude.{◌≡◌, ◌+◌, ◌-◌, ◌≤◌, length};
ghost use Rattle.words.specs.Words.{over, zeros, limited};

// Copies all of src into s from `at` on. A loop, since `copy_from_slice` would have the archive ask for `memmove`.
pub fn copy_at(s: &mut [u8], at: usize, src: &[u8])
    requires { at + length src.now ≤ length s.old }
    ensures { s.new ≡ over s.old at src.now }
{
    for i in 0..src.len() {
        s[at + i] = src[i];
    }
}

// Zeroes s from `from` up to, not including, `to`.
#[tactic(auto, unfolding(crate::specs::Words::over))]
pub fn clear_at(s: &mut [u8], from: usize, to: usize)
    requires { (from ≤ to) × (to ≤ length s.old) }
    ensures { s.new ≡ over s.old from (zeros (to - from)) }
{
    s[from..to].fill(0);
}

// Copies src to the start of s, cut at an allocation length, and answers how many bytes that were. Out of line, its loop is
// compiled alike for every caller.
#[inline(never)]
pub fn copy_limited(s: &mut [u8], src: &[u8], allocation: usize) -> usize
    requires { length (limited allocation src.now) ≤ length s.old }
    ensures { (s.new ≡ over s.old 0 (limited allocation src.now)) × (result ≡ length (limited allocation src.now)) }
{
    let n = allocation.min(src.len());
    copy_at(s, 0, &src[..n]);
    n
}
