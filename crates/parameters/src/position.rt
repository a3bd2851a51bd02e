// READ POSITION: it answers in one of two forms.
ghost use Rattle.std.specs.Prelude.{◌≡◌, [], ◌≤◌, length};
ghost use Rattle.words.specs.Words.{over};
ghost use Rattle.image.specs.Image.{count};
ghost use Rattle.codes.specs.declared.operation.Operation.TheVariants.{ReadPosition};
ghost use Rattle.commands.specs.Act.{reply_of, act};
ghost use Rattle.commands.specs.Call.{seen_of};
ghost use Rattle.deeds.specs.Left.{left_by};

use deeds::Left;
use image::Image;
use kinds::{LONG_LENGTH, SHORT_LENGTH};
use payloads::{long_position, short_position};
use record::Drive;

// READ POSITION, with a receiving buffer that is long enough.
pub fn read_position(image: &Image, d: Drive, cmd: &[u8], received: &mut [u8]) -> Left
    requires { (d.position ≤ count image.now.bytes) × (5 ≤ length cmd.now)
        × (length (reply_of ReadPosition d cmd.now (seen_of image.now.bytes)) ≤ length received.old) }
    ensures { (result ≡ left_by (act ReadPosition d cmd.now [] (seen_of image.now.bytes)))
        × (received.new ≡ over received.old 0 (reply_of ReadPosition d cmd.now (seen_of image.now.bytes))) }
{
    let zone = image.in_zone(d.position);
    if codes::form(cmd) == kinds::SHORT_FORM {
        let told = short_position(d.current, d.position, zone);
        words::copy_at(received, 0, &told);
        return deeds::good(d, SHORT_LENGTH as u32);
    }
    let filemarks = image.filemarks_before(d.position);
    let told = long_position(d.current, d.position, zone, filemarks);
    words::copy_at(received, 0, &told);
    deeds::good(d, LONG_LENGTH as u32)
}
