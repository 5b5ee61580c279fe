// Draws a solid from the edits on standard input, and prints each reply and then the finished solid.
#![tactic(auto)]

use std::io;
use std::io::Read;

fn main(rt: HostRuntime) -> io::Result<()> {
    let mut input = Vec::new(rt.alloc());
    rt.stdin()
        .take(drawing::LIMIT as u64)
        .read_to_end(&mut input)?;
    let text = drawing::draw(rt.alloc(), input.as_slice())?;
    rt.print(text.as_str())
}
