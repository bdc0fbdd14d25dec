// Prints a closed book: reads its bytes from standard input, and writes its entries and the accounts that they give.
#![tactic(auto)]

mod text;

use std::io;
use std::io::{Read, Write};
use text::book_text;

// No more is read than one byte above the largest closed book, since a longer input is refused whatever follows.
const MOST_READ: u64 = 655_361;

fn main(rt: HostRuntime) -> io::Result<()> {
    let mut bytes = Vec::new(rt.alloc());
    rt.stdin().take(MOST_READ).read_to_end(&mut bytes)?;
    let text = book_text(rt.alloc(), bytes.as_slice())?;
    rt.stdout().write_all(text.as_slice())
}
