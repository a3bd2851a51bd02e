// The listing of an image, written as text from the start of a slice on. What appends takes the text's end, and answers the new one.
ghost use Rattle.std.specs.Prelude.{◌≡◌, ◌+◌, ◌≤◌, ◌<◌, length};
ghost use Rattle.words.specs.Words.{over};
ghost use Rattle.answers.specs.Answers.{fault_number};
ghost use Rattle.image.specs.Image.{count, object_at};
ghost use Rattle.listing.specs.Text.{decimal};
ghost use Rattle.listing.specs.Listing.{refusal, line, heading, listing};
ghost use Rattle.listing.specs.Room.{heading_room, line_room, text_room};

use answers::Refusal;
use image::{count_of, end_at, fault_of, is_filemark, room_at};
use words::copy_at;

// The longest input that may be listed.
pub const MOST_INPUT: usize = 65_536;

// Room for the listing of any input.
pub const ROOM: usize = 294_912;

// Appends src.
fn append(text: &mut [u8], at: usize, src: &[u8]) -> usize
    requires { at + length src.now ≤ length text.old }
    ensures { (text.new ≡ over text.old at src.now) × (result ≡ at + length src.now) }
{
    copy_at(text, at, src);
    at + src.len()
}

// Appends n in decimal: the digits of a tenth of it, and its last digit.
fn append_number(text: &mut [u8], at: usize, n: u32) -> usize
    requires { at + length (decimal n) ≤ length text.old }
    ensures { (text.new ≡ over text.old at (decimal n)) × (result ≡ at + length (decimal n)) }
{
    if n < 10 {
        return append(text, at, &[b'0' + n as u8]);
    }
    let end = append_number(text, at, n / 10);
    append(text, end, &[b'0' + (n % 10) as u8])
}

// Appends line one: how many objects there are, and the room behind them.
fn append_heading(text: &mut [u8], image: &[u8]) -> usize
    requires { (refusal image.now ≡ 0) × (heading_room ≤ length text.old) }
    ensures { (text.new ≡ over text.old 0 (heading image.now)) × (result ≡ length (heading image.now)) }
{
    let n = count_of(image) as usize;
    let room = room_at(image, n);
    let mut at = append(text, 0, b"objects ");
    at = append_number(text, at, n as u32);
    at = append(text, at, b" free ");
    at = append_number(text, at, room as u32);
    append(text, at, b"\n")
}

// Appends the line of object i.
fn append_line(text: &mut [u8], at: usize, image: &[u8], i: usize) -> usize
    requires { (refusal image.now ≡ 0) × (i < count image.now) × (at + line_room ≤ length text.old) }
    ensures { (text.new ≡ over text.old at (line i (object_at image.now i)))
        × (result ≡ at + length (line i (object_at image.now i))) }
{
    let mut end = append_number(text, at, i as u32);
    if is_filemark(image, i) {
        end = append(text, end, b" filemark");
        return append(text, end, b"\n");
    }
    let len = end_at(image, i + 1) - end_at(image, i);
    end = append(text, end, b" block ");
    end = append_number(text, end, len);
    append(text, end, b"\n")
}

// Lists an input that is not refused: line one, and a line for each object.
fn list_objects(image: &[u8], text: &mut [u8]) -> usize
    requires { (refusal image.now ≡ 0) × (text_room ≤ length text.old) }
    ensures { (text.new ≡ over text.old 0 (listing image.now)) × (result ≡ length (listing image.now)) }
{
    let n = count_of(image) as usize;
    let mut at = append_heading(text, image);
    for i in 0..n {
        at = append_line(text, at, image, i);
    }
    at
}

// Whether an input is listed, or its refusal.
#[tactic(auto, unfolding(crate::specs::Listing::refusal))]
fn refusal_of(input: &[u8]) -> Result<(), Refusal>
    ensures { fault_number result ≡ refusal input.now }
{
    if input.len() > MOST_INPUT {
        return Err(Refusal::WrongLength);
    }
    fault_of(input)
}

// Lists an input: what it holds, or why it is refused.
pub fn list(image: &[u8], text: &mut [u8]) -> usize
    requires { text_room ≤ length text.old }
    ensures { (text.new ≡ over text.old 0 (listing image.now)) × (result ≡ length (listing image.now)) }
{
    if let Err(refusal) = refusal_of(image) {
        let mut at = append(text, 0, b"refused ");
        at = append_number(text, at, u32::from(u8::from(refusal)));
        return append(text, at, b"\n");
    }
    list_objects(image, text)
}

#[cfg(test)]
mod tests {
    use super::*;
    use std::test::Fail;

    // An image of the least length that has no object, and an input that is too short for an image.
    #[test]
    fn lists(rt: HostRuntime) -> Result<(), Fail> {
        let mut text = [0u8; ROOM];
        let mut blank = [0; 64];
        blank[59] = 48;
        blank[63] = 64;
        assert_eq!(rt; list(&blank, &mut text), 18);
        assert_eq!(rt; &text[..18], b"objects 0 free 48\n".as_slice());
        assert_eq!(rt; list(&[], &mut text), 10);
        assert_eq!(rt; &text[..10], b"refused 7\n".as_slice());
        Ok(())
    }
}
