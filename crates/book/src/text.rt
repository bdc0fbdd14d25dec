// The text that is printed of a closed book.
ghost use Rattle.std.specs.Prelude.{◌≡◌, ◌++◌, [], IfOk, OnOk};
ghost use Rattle.std.specs.List.{slice_get};
ghost use Rattle.leaves.specs.Stores.{book_entries};
ghost use Rattle.book.specs.Printed.{line_of, entry_lines, account_line, account_lines, length_line, book_text, refusal_line, Printed};

use journal::{ACCOUNTS, Given, LONGEST_LINE, Reading, entry_line, last_given};
use leaves::{BookRefusal, ClosedBook, check_book};
use std::alloc::{AllocError, Global};
use std::marker::Model;

// The text so far, and the heap that its lines are made on.
#[derive(Drop)]
struct Text {
    heap: Global,
    bytes: Vec<u8>,
}

impl Model for Text {
    ghost use Rattle.std.specs.Prelude.{ℕ, List};

    ghost Value = { List ℕ };

    ghost view = { λ text. text.bytes.items };
}

impl Text {
    fn new(heap: Global) -> Self
        ensures { result ≡ [] }
    {
        Text {
            heap,
            bytes: Vec::new(heap),
        }
    }

    fn push(&mut self, part: &[u8]) -> Result<(), AllocError>
        ensures { OnOk result (self.new ≡ self.old ++ part.now) }
    {
        self.bytes.extend_from_slice(part)
    }

    // The line of entry `k`, if there is such an entry. The buffer has room for every line that an entry can have.
    fn push_entry_line(&mut self, book: &ClosedBook<'_>, k: usize) -> Result<(), AllocError>
        ensures { OnOk result (self.new ≡ self.old ++ line_of k (slice_get (book_entries book.now) k)) }
    {
        let mut buffer = [0u8; LONGEST_LINE];
        let length = entry_line(book, k, &mut buffer).unwrap_or(0);
        self.push(&buffer[..length])
    }

    fn push_entry_lines(&mut self, book: &ClosedBook<'_>) -> Result<(), AllocError>
        ensures { OnOk result (self.new ≡ self.old ++ entry_lines (book_entries book.now)) }
    {
        for k in 0..book.length() {
            self.push_entry_line(book, k)?;
        }
        Ok(())
    }

    fn push_account_line(&mut self, account: u8, given: Option<Given>) -> Result<(), AllocError>
        ensures { OnOk result (self.new ≡ self.old ++ account_line account given) }
    {
        let Some(Given { place, value }) = given else {
            return Ok(());
        };
        let line = format!(in self.heap; "A,{account},{value},{place}\n")?;
        self.push(line.as_bytes())
    }

    fn push_account_lines(&mut self, book: &ClosedBook<'_>) -> Result<(), AllocError>
        ensures { OnOk result (self.new ≡ self.old ++ account_lines (book_entries book.now)) }
    {
        let length = book.length();
        for account in 0..ACCOUNTS as u8 {
            self.push_account_line(account, last_given(book, account, length))?;
        }
        Ok(())
    }

    fn push_length_line(&mut self, length: usize) -> Result<(), AllocError>
        ensures { OnOk result (self.new ≡ self.old ++ length_line length) }
    {
        let line = format!(in self.heap; "L,{length}\n")?;
        self.push(line.as_bytes())
    }

    fn push_refusal_line(&mut self, refusal: BookRefusal) -> Result<(), AllocError>
        ensures { OnOk result (self.new ≡ self.old ++ refusal_line refusal) }
    {
        let number = u8::from(refusal);
        let leaf = refusal.leaf();
        let line = format!(in self.heap; "E,{number},{leaf}\n")?;
        self.push(line.as_bytes())
    }

    fn push_book(&mut self, book: &ClosedBook<'_>) -> Result<(), AllocError>
        ensures { OnOk result (self.new ≡ self.old ++ book_text (book_entries book.now)) }
    {
        self.push_entry_lines(book)?;
        self.push_account_lines(book)?;
        self.push_length_line(book.length())
    }
}

// What is printed of these bytes: the entries and the accounts of a closed book, or why they are none.
pub fn book_text(heap: Global, bytes: &[u8]) -> Result<Vec<u8>, AllocError>
    ensures { IfOk result (λ text. Printed bytes.now text.items) }
{
    let mut text = Text::new(heap);
    match check_book(bytes) {
        Ok(()) => text.push_book(&ClosedBook::open(bytes))?,
        Err(refusal) => text.push_refusal_line(refusal)?,
    }
    Ok(text.bytes)
}
