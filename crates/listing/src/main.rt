// Lists an image from standard input: what it holds, or why it is refused.
#![tactic(auto)]

mod text;

use std::io;

fn main(rt: HostRuntime) -> io::Result<()> {
    // A byte more than may be listed, so that a longer input shows.
    let mut input = [0u8; text::MOST_INPUT + 1];
    let len = streams::read_all(&mut rt.stdin(), &mut input)?;
    let mut text = [0u8; text::ROOM];
    let end = text::list(&input[..len], &mut text);
    streams::write_all(&mut rt.stdout(), &text[..end])
}
