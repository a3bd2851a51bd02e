// What REQUEST SENSE returns: which sense, and how long it is in the form asked for.
ghost use Rattle.std.specs.Prelude.{◌≡◌, length};
ghost use Rattle.sense.specs.Descriptors.{in_form};
ghost use Rattle.commands.specs.Act.{sense_asked};

use record::Drive;
use sense::{BOTH_LENGTH, SENSE_LENGTH, STREAM_LENGTH, Sense};

// The sense that REQUEST SENSE answers: the waiting attention's, else the kept one.
pub fn sense_asked(d: Drive) -> [u8; SENSE_LENGTH]
    ensures { result ≡ sense_asked d }
{
    if d.attention == record::NO_ATTENTION {
        return d.sense;
    }
    sense::of_attention(d.attention)
}

// Its length: eighteen bytes, or, in descriptor form, as long as VALID says.
#[tactic(auto, using(sense::proofs::Forms::in_form_length, commands::proofs::Faultless::asked_whole))]
pub fn asked_length(d: Drive, descriptors: bool) -> usize
    ensures { result ≡ length (in_form descriptors (sense_asked d)) }
{
    if !descriptors {
        SENSE_LENGTH
    } else if Sense::from(&sense_asked(d)).valid {
        BOTH_LENGTH
    } else {
        STREAM_LENGTH
    }
}
