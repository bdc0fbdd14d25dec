// What an office tells.

// An open house: the number of its posting, its help date, 0 for none, and how many rounds of its keeper on the
// posting have failed. All are 0 for a house that is closed: an enquiry tells three numbers, and 0 is its word for
// none, as the formats say.
#[derive(Clone, Copy, Debug, PartialEq, Eq)]
pub struct HouseTold {
    pub number: u32,
    pub date: u32,
    pub failed: u16,
}

// What a run of turns did: how many turns were taken, and how many entries were filed.
#[derive(Clone, Copy, Debug, PartialEq, Eq)]
pub struct RunTold {
    pub turns: usize,
    pub filed: usize,
}
