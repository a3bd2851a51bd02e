// REQUEST SENSE, READ BLOCK LIMITS and MODE SENSE: each answers with data, cut at an allocation where it has one.
ghost use Rattle.std.specs.Prelude.{◌≡◌, [], ◌≤◌, length};
ghost use Rattle.words.specs.Words.{over, limited};
ghost use Rattle.sense.specs.Descriptors.{in_form};
ghost use Rattle.codes.specs.declared.operation.Operation.TheVariants.{RequestSense, ReadBlockLimits, ModeSense};
ghost use Rattle.commands.specs.Act.{reply_of, act};
ghost use Rattle.commands.specs.Call.{nothing};
ghost use Rattle.deeds.specs.Left.{left_by, protected_only};

use deeds::Left;
use payloads::{block_limits, mode_data, mode_header, sense_asked};
use record::Drive;
use sense::{SENSE_LENGTH, Sense};

// A sense in the form asked for, cut at an allocation, with a receiving buffer that is long enough; how many bytes that were.
#[tactic(auto, unfolding(sense::specs::Descriptors::in_form))]
fn give_sense(
    b: &[u8; SENSE_LENGTH],
    descriptors: bool,
    allocation: usize,
    received: &mut [u8],
) -> usize
    requires { length (limited allocation (in_form descriptors b.now)) ≤ length received.old }
    ensures { (received.new ≡ over received.old 0 (limited allocation (in_form descriptors b.now))) × (result ≡ length (limited allocation (in_form descriptors b.now))) }
{
    if !descriptors {
        return words::copy_limited(received, b, allocation);
    }
    let s = Sense::from(b);
    if s.valid {
        let both = sense::with_information(s);
        return words::copy_limited(received, &both, allocation);
    }
    let stream = sense::stream_alone(s);
    words::copy_limited(received, &stream, allocation)
}

// REQUEST SENSE, with a receiving buffer that is long enough.
#[tactic(auto, unfolding(commands::specs::Act::act, commands::specs::Act::reply_of))]
pub fn request_sense(d: Drive, cmd: &[u8], received: &mut [u8]) -> Left
    requires { (5 ≤ length cmd.now) × (length (reply_of RequestSense d cmd.now nothing) ≤ length received.old) }
    ensures { (result ≡ left_by (act RequestSense d cmd.now [] nothing)) × (received.new ≡ over received.old 0 (reply_of RequestSense d cmd.now nothing)) }
{
    let asked = sense_asked(d);
    let descriptors = codes::asks_descriptors(cmd);
    let n = codes::allocation(cmd);
    let carried = give_sense(&asked, descriptors, n as usize, received);
    deeds::good(deeds::unattended(d), carried as u32)
}

// READ BLOCK LIMITS, with a receiving buffer that is long enough.
#[tactic(auto, unfolding(commands::specs::Act::act, commands::specs::Act::reply_of, commands::specs::Parameters::block_limits))]
pub fn read_block_limits(d: Drive, received: &mut [u8]) -> Left
    requires { length (reply_of ReadBlockLimits d [] nothing) ≤ length received.old }
    ensures { (result ≡ left_by (act ReadBlockLimits d [] [] nothing)) × (received.new ≡ over received.old 0 (reply_of ReadBlockLimits d [] nothing)) }
{
    let limits = block_limits();
    words::copy_at(received, 0, &limits);
    deeds::good(d, kinds::LIMITS_LENGTH as u32)
}

// MODE SENSE of a partition that is protected or not, with a receiving buffer that is long enough.
#[tactic(auto, unfolding(commands::specs::Act::act, commands::specs::Act::reply_of, commands::specs::Parameters::mode_data))]
pub fn mode_sense(d: Drive, cmd: &[u8], guarded: bool, received: &mut [u8]) -> Left
    requires { (5 ≤ length cmd.now) × (length (reply_of ModeSense d cmd.now (protected_only guarded)) ≤ length received.old) }
    ensures { (result ≡ left_by (act ModeSense d cmd.now [] (protected_only guarded))) × (received.new ≡ over received.old 0 (reply_of ModeSense d cmd.now (protected_only guarded))) }
{
    let n = codes::allocation(cmd);
    if codes::dbd(cmd) {
        let header = mode_header(guarded);
        let carried = words::copy_limited(received, &header, n as usize);
        return deeds::good(d, carried as u32);
    }
    let data = mode_data(guarded, d.block_length);
    let carried = words::copy_limited(received, &data, n as usize);
    deeds::good(d, carried as u32)
}
