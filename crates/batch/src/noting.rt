// What a plan tells, and how accepted lines fill it.
ghost use Rattle.std.specs.Prelude.{◌≡◌, ℕ, ◌<◌, ◌≤◌, IfSome};
ghost use Rattle.batch.specs.Limits.{Within};
ghost use Rattle.batch.specs.Plans.{terms, fresh, blank as blank_terms, keeper_of, noted};

use crate::items::{Head, Item};
use crate::plan::Plan;
use crate::progress::Progress;

impl Plan {
    // 1 house, 1 worker, patience 1 and zeros.
    pub fn blank() -> Self
        ensures { terms result ≡ blank_terms }
    {
        Plan::fresh(Head {
            houses: 1,
            workers: 1,
            patience: 1,
        })
    }

    // As the first line tells it, with zeros for what comes later.
    fn fresh(head: Head) -> Self
        requires houses { (1 ≤ head.houses) × (head.houses ≤ 16) }
        requires workers { (1 ≤ head.workers) × (head.workers ≤ 8) }
        requires patience { (1 ≤ head.patience) × (head.patience ≤ 1000) }
        ensures { terms result ≡ fresh head.houses head.workers head.patience }
    {
        Plan {
            houses: head.houses,
            workers: head.workers,
            patience: head.patience,
            keepers: [0; 16],
            openings: [0; 64],
        }
    }

    pub fn houses(&self) -> u8
        ensures value { result ≡ (terms self.now).houses }
        ensures within { (1 ≤ result) × (result ≤ 16) }
    {
        self.houses
    }

    pub fn workers(&self) -> u8
        ensures value { result ≡ (terms self.now).workers }
        ensures within { (1 ≤ result) × (result ≤ 8) }
    {
        self.workers
    }

    pub fn patience(&self) -> u16
        ensures value { result ≡ (terms self.now).patience }
        ensures within { (1 ≤ result) × (result ≤ 1000) }
    {
        self.patience
    }

    // The worker that keeps this house, or none if there is no such house.
    pub fn keeper(&self, house: u8) -> Option<u8>
        ensures value { result ≡ keeper_of (terms self.now) house }
        ensures within { IfSome result (λ k. k < (terms self.now).workers) }
    {
        (house < self.houses).then(|| self.keepers[house as usize])
    }

    // The opening value of each account.
    pub fn openings(&self) -> &[i64; 64]
        ensures { result.now ≡ (terms self.now).openings }
    {
        &self.openings
    }

    // One more line.
    pub(crate) fn note(&mut self, known: &Progress, item: Item)
        requires within { Within known.now item }
        requires houses { self.old.houses ≡ known.now.houses }
        requires workers { self.old.workers ≡ known.now.workers }
        ensures { terms self.new ≡ noted (terms self.old) known.now.seen item }
    {
        match item {
            Item::Begins(head) => *self = Plan::fresh(head),
            Item::Opened(opens) => self.openings[opens.account as usize] = opens.cents,
            Item::Kept(keeper) => self.keepers[known.seen as usize] = keeper,
            _ => {}
        }
    }
}
