// What the reader has to know of the lines before the one that it reads.
ghost use Rattle.std.specs.Prelude.{◌≡◌};
ghost use Rattle.batch.specs.Progress.{start, entered};
ghost use Rattle.batch.specs.Limits.{Allowed};

use crate::items::Item;

// What came last.
#[derive(Clone, Copy, Debug, PartialEq, Eq)]
pub enum Stage {
    // Nothing yet.
    Start,
    // The first line, or an opening value.
    Heading,
    // A house without postings.
    Housing,
    // A posting, or one of its order lines.
    Drafting,
    // A run.
    Running,
}

#[derive(Clone, Copy, Debug, PartialEq, Eq)]
pub struct Progress {
    pub stage: Stage,
    // As the first line tells them; 1 before it.
    pub houses: u8,
    pub workers: u8,
    // How many houses have come.
    pub seen: u8,
    // The least account whose opening value may come next.
    pub account: u8,
    // How many postings of the last house, and how many order lines of the last posting, have come.
    pub here: usize,
    pub lines: usize,
    // How many records the tables need so far.
    pub postings: usize,
    pub orders: usize,
    pub runs: usize,
}

// How many records the tables can hold.
#[derive(Clone, Copy, Debug, PartialEq, Eq)]
pub struct Sizes {
    pub postings: usize,
    pub orders: usize,
    pub runs: usize,
}

impl Progress {
    pub(crate) fn start() -> Self
        ensures { result ≡ start }
    {
        Progress {
            stage: Stage::Start,
            houses: 1,
            workers: 1,
            seen: 0,
            account: 0,
            here: 0,
            lines: 0,
            postings: 0,
            orders: 0,
            runs: 0,
        }
    }

    // One more line.
    pub(crate) fn enter(&mut self, item: Item, sizes: Sizes)
        requires { Allowed sizes self.old item }
        ensures { self.new ≡ entered self.old item }
    {
        match item {
            Item::Begins(head) => {
                self.stage = Stage::Heading;
                self.houses = head.houses;
                self.workers = head.workers;
            }
            Item::Opened(opens) => {
                self.stage = Stage::Heading;
                self.account = opens.account + 1;
            }
            Item::Kept(_) => {
                self.stage = Stage::Housing;
                self.seen += 1;
                self.here = 0;
            }
            Item::Posts => {
                self.stage = Stage::Drafting;
                self.here += 1;
                self.lines = 0;
                self.postings += 1;
            }
            Item::Orders(_) => {
                self.stage = Stage::Drafting;
                self.lines += 1;
                self.orders += 1;
            }
            Item::Runs(_) => {
                self.stage = Stage::Running;
                self.runs += 1;
            }
        }
    }
}
