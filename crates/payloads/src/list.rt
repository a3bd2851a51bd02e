// What MODE SELECT takes.
ghost use Rattle.std.specs.Prelude.{◌≡◌, ◌≤◌, length};
ghost use Rattle.commands.specs.Parameters.{whole_length, new_length, header_right, descriptor_right, list_right};

use kinds::{HEADER_LENGTH, WHOLE_LENGTH};
use words::{be24_at, be32_at};

// The block length that a descriptor gives.
pub fn new_length(s: &[u8]) -> u32
    requires { whole_length ≤ length s.now }
    ensures { result ≡ new_length s.now }
{
    be24_at(s, 9)
}

// Whether the header is right: bytes 1 and 2 zero, byte 3 as the length says.
#[tactic(auto, unfolding(commands::specs::Parameters::header_right))]
fn is_header_right(n: u8, s: &[u8]) -> bool
    requires { 4 ≤ length s.now }
    ensures { result ≡ header_right n s.now }
{
    let descriptor_length = if n as usize == WHOLE_LENGTH { 8 } else { 0 };
    s[1] == 0 && s[2] == 0 && s[3] == descriptor_length
}

// Whether the descriptor is right: bytes 0 to 3 zero, a block length that a block may have.
#[tactic(auto, unfolding(commands::specs::Parameters::descriptor_right))]
fn is_descriptor_right(s: &[u8]) -> bool
    requires { whole_length ≤ length s.now }
    ensures { result ≡ descriptor_right s.now }
{
    be32_at(s, 4) == 0 && new_length(s) <= objects::LARGEST_BLOCK
}

// Whether a list of n bytes is right.
#[tactic(auto, unfolding(commands::specs::Parameters::list_right))]
pub fn is_list_right(n: u8, s: &[u8]) -> bool
    requires { (4 ≤ n) × (n ≤ length s.now) }
    ensures { result ≡ list_right n s.now }
{
    is_header_right(n, s)
        && match n as usize {
            WHOLE_LENGTH => is_descriptor_right(s),
            n => n == HEADER_LENGTH,
        }
}
