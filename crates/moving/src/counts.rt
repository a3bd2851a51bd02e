// As much of a count as can matter.
ghost use Rattle.std.specs.Prelude.{◌≡◌, ◌-◌, ◌^◌, min};

// n cut to what 32 bits hold, which is more than any image has objects: a walk over as many ends where one over n does, and its
// residue fits 32 signed bits as little.
pub fn bounded(n: u64) -> u32
    ensures { result ≡ min n (2 ^ 32 - 1) }
{
    u32::try_from(n).unwrap_or(u32::MAX)
}
