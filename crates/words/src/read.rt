// Numbers read from a slice, the highest byte first.
ghost use Rattle.std.specs.Prelude.{◌≡◌, ◌+◌, ◌≤◌, length, take, drop};
ghost use Rattle.words.specs.Words.{be};

// The N bytes at `at`.
pub fn array_at<const N: usize>(s: &[u8], at: usize) -> [u8; N]
    requires { at + N ≤ length s.now }
    ensures { result ≡ take N (drop at s.now) }
{
    s[at..at + N].try_into().unwrap()
}

// The three bytes at `at`.
#[tactic(auto, using(crate::proofs::Stores::be24))]
pub fn be24_at(s: &[u8], at: usize) -> u32
    requires { at + 3 ≤ length s.now }
    ensures { result ≡ be 3 s.now at }
{
    let [high, middle, low] = array_at::<3>(s, at);
    u32::from_be_bytes([0, high, middle, low])
}

// The four bytes at `at`.
#[tactic(auto, using(crate::proofs::Stores::be32))]
pub fn be32_at(s: &[u8], at: usize) -> u32
    requires { at + 4 ≤ length s.now }
    ensures { result ≡ be 4 s.now at }
{
    u32::from_be_bytes(array_at(s, at))
}

// The eight bytes at `at`.
#[tactic(auto, using(crate::proofs::Stores::be64))]
pub fn be64_at(s: &[u8], at: usize) -> u64
    requires { at + 8 ≤ length s.now }
    ensures { result ≡ be 8 s.now at }
{
    u64::from_be_bytes(array_at(s, at))
}
