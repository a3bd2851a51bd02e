// Two's complement: counts as integers, the difference that wraps, and 32 bits in 64.
ghost use Rattle.std.specs.Prelude.{◌≡◌, ◌^◌, ◌<◌};
ghost use Rattle.std.proofs.Math.IntN.{sub_ℕ};
ghost use Rattle.words.specs.Signed.{signed, wrapped, extended};

// The integer that a count of 24 bits stands for.
#[tactic(auto, unfolding(crate::specs::Signed::signed))]
pub fn signed24(x: u32) -> i64
    requires { x < 2 ^ 24 }
    ensures { result ≡ signed (2 ^ 23) x }
{
    i64::from((x << 8).cast_signed() >> 8)
}

// The integer that a count of 64 bits stands for.
#[tactic(auto, unfolding(crate::specs::Signed::signed))]
pub fn signed64(x: u64) -> i64
    ensures { result ≡ signed (2 ^ 63) x }
{
    x.cast_signed()
}

// The request less the actual, in 32 bits: by a subtraction that wraps.
#[tactic(auto, using(crate::proofs::Wraps::by_sum))]
pub fn difference(request: u32, actual: u32) -> u32
    ensures { result ≡ wrapped (sub_ℕ request actual) }
{
    request.wrapping_sub(actual)
}

// The 64 bits of the integer that 32 stand for: its sign bit fills those above.
#[tactic(auto, unfolding(crate::specs::Signed::extended))]
pub fn extended(x: u32) -> u64
    ensures { result ≡ extended x }
{
    i64::from(x.cast_signed()).cast_unsigned()
}
