// Tells whether a batch is accepted, before anything is posted: reads its text from standard input, and prints why it is refused,
// or what it holds.
#![tactic(auto)]

mod text;

use std::io;
use std::io::{Read, Write};
use text::check_text;

// No more is read than one byte above the longest batch, since a longer text is refused whatever follows.
const MOST_READ: u64 = 32_769;

fn main(rt: HostRuntime) -> io::Result<()> {
    let mut bytes = Vec::new(rt.alloc());
    rt.stdin().take(MOST_READ).read_to_end(&mut bytes)?;
    let text = check_text(rt.alloc(), bytes.as_slice())?;
    rt.stdout().write_all(text.as_bytes())
}
