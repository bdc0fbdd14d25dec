// Why an office refuses a call.
ghost use Rattle.std.specs.Prelude.{◌≡◌};
ghost use Rattle.protocol.specs.Opening.{opening_number};
ghost use Rattle.protocol.specs.Calls.{turn_number, run_number, run_item, house_number};

// Why an office was not opened, in the order of the tests, each with its number.
#[derive(Clone, Copy, Debug, PartialEq, Eq)]
pub enum OpeningRefusal {
    // The source and the plan differ in the number of houses.
    HousesDiffer = 21,
    // The journal has entries, or the office was opened before.
    NotEmpty = 22,
    // The source has more postings than the journal's size.
    TooManyPostings = 23,
}

impl From<OpeningRefusal> for u8 {
    ghost from_gives = { λ refusal number. number ≡ opening_number refusal };

    fn from(refusal: OpeningRefusal) -> u8 {
        refusal as u8
    }
}

// Why a turn was not taken, with its number.
#[derive(Clone, Copy, Debug, PartialEq, Eq)]
pub enum TurnRefusal {
    NoSuchWorker = 31,
}

impl From<TurnRefusal> for u8 {
    ghost from_gives = { λ refusal number. number ≡ turn_number refusal };

    fn from(refusal: TurnRefusal) -> u8 {
        refusal as u8
    }
}

// Why no turn of a run was taken: first the list as a whole, then the first refused item, counted from 0.
#[derive(Clone, Copy, Debug, PartialEq, Eq)]
pub enum RunRefusal {
    // There are more than 4,096 items.
    TooManyItems,
    NoSuchWorker(usize),
    // The count is not from 1 to 10,000.
    BadCount(usize),
}

impl From<RunRefusal> for u8 {
    ghost from_gives = { λ refusal number. number ≡ run_number refusal };

    fn from(refusal: RunRefusal) -> u8 {
        match refusal {
            RunRefusal::TooManyItems => 33,
            RunRefusal::NoSuchWorker(_) => 31,
            RunRefusal::BadCount(_) => 32,
        }
    }
}

impl RunRefusal {
    // The refused item, or 0 where it is the list as a whole: an `Option` would be turned back into 0 where it is printed.
    pub fn item(self) -> usize
        ensures { result ≡ run_item self }
    {
        match self {
            RunRefusal::TooManyItems => 0,
            RunRefusal::NoSuchWorker(item) | RunRefusal::BadCount(item) => item,
        }
    }
}

// Why nothing was told of a house, with its number.
#[derive(Clone, Copy, Debug, PartialEq, Eq)]
pub enum HouseRefusal {
    NoSuchHouse = 43,
}

impl From<HouseRefusal> for u8 {
    ghost from_gives = { λ refusal number. number ≡ house_number refusal };

    fn from(refusal: HouseRefusal) -> u8 {
        refusal as u8
    }
}
