// What the lines of a batch say, and why one may be refused.
ghost use Rattle.std.specs.Prelude.{◌≡◌};
ghost use Rattle.batch.specs.Refusals.{refusal_number, refusal_line, refusal_field, refusal_at};

use crate::records::{OrderLine, Run};

// The kinds of order lines.
#[derive(Clone, Copy, Debug, PartialEq, Eq)]
pub enum Kind {
    Take,
    Join,
    Set,
    Raise,
    Need,
    Write,
}

// What a line is for.
#[derive(Clone, Copy, Debug, PartialEq, Eq)]
pub enum Mark {
    Begin,
    Opening,
    House,
    Posting,
    Order(Kind),
    Run,
}

// The first line.
#[derive(Clone, Copy, Debug, PartialEq, Eq)]
pub struct Head {
    pub houses: u8,
    pub workers: u8,
    pub patience: u16,
}

// An account's opening value.
#[derive(Clone, Copy, Debug, PartialEq, Eq)]
pub struct Opens {
    pub account: u8,
    pub cents: i64,
}

// What an accepted line says.
#[derive(Clone, Copy, Debug, PartialEq, Eq)]
pub enum Item {
    Begins(Head),
    Opened(Opens),
    // The keeper of the next house.
    Kept(u8),
    Posts,
    Orders(OrderLine),
    Runs(Run),
}

// Why a line is refused, in the order of the tests.
#[derive(Clone, Copy, Debug, PartialEq, Eq)]
pub enum Fault {
    Form,
    Place,
    // Which field, counted from 1.
    Field(u8),
    Room,
}

// Why a batch is refused: the first faulty line, counted from 1, and what is wrong with it.
#[derive(Clone, Copy, Debug, PartialEq, Eq)]
pub enum BatchRefusal {
    // The text is empty or has more than 32,768 bytes.
    Size,
    // The line has an unknown mark or a wrong count of fields.
    Form(usize),
    // By the marks before it the line may not stand there, or it is a posting's 17th order line or a house's 4,097th posting.
    Place(usize),
    // A field of the line breaks its rule; of several the leftmost. Fields count from 1, the mark being the first.
    Field(usize, u8),
    // The table that the line would go to is full.
    Room(usize),
    // Told at the last line: it has no line feed, or a house is missing.
    End(usize),
}

impl Fault {
    // The refusal of a batch by this fault of a line.
    pub(crate) fn at(self, line: usize) -> BatchRefusal
        ensures { result ≡ refusal_at line self }
    {
        match self {
            Fault::Form => BatchRefusal::Form(line),
            Fault::Place => BatchRefusal::Place(line),
            Fault::Field(field) => BatchRefusal::Field(line, field),
            Fault::Room => BatchRefusal::Room(line),
        }
    }
}

impl From<BatchRefusal> for u8 {
    ghost from_gives = { λ refusal number. number ≡ refusal_number refusal };

    fn from(refusal: BatchRefusal) -> u8 {
        match refusal {
            BatchRefusal::Size => 11,
            BatchRefusal::Form(_) => 12,
            BatchRefusal::Place(_) => 13,
            BatchRefusal::Field(_, _) => 14,
            BatchRefusal::Room(_) => 15,
            BatchRefusal::End(_) => 16,
        }
    }
}

impl BatchRefusal {
    // The line, or 0 if it is the text as a whole: an `Option` would be turned back into 0 wherever it is printed.
    pub fn line(self) -> usize
        ensures { result ≡ refusal_line self }
    {
        match self {
            BatchRefusal::Size => 0,
            BatchRefusal::Form(line)
            | BatchRefusal::Place(line)
            | BatchRefusal::Field(line, _)
            | BatchRefusal::Room(line)
            | BatchRefusal::End(line) => line,
        }
    }

    // The field, or 0 if no field breaks its rule, which is printed as well.
    pub fn field(self) -> u8
        ensures { result ≡ refusal_field self }
    {
        match self {
            BatchRefusal::Field(_, field) => field,
            _ => 0,
        }
    }
}
