// The plan: what an office is opened with.
ghost use Rattle.std.specs.Prelude.{ℕ, ◌<◌, ◌≤◌, pos, slice_index, slice_index_or};
ghost use Rattle.journal.specs.Entries.{InRange};

// Houses, workers, the keeper of each house, patience and the opening value of each account.
// A house is a client whose money is kept, and runs its postings one after the other, as a process its transactions.
// A worker takes turns at posting, as a processor does; the keeper of a house is the worker that owns its postings.
// Patience is how many failed rounds of a posting its keeper bears before it calls the other workers for help.
// Every plan keeps these limits. Only an accepted batch fills one, and nobody can copy it. It has one size, whatever it
// holds, so that no heap is needed.
#[derive(Debug, Drop)]
pub struct Plan {
    pub(crate) houses: u8,
    pub(crate) workers: u8,
    pub(crate) patience: u16,
    pub(crate) keepers: [u8; 16],
    pub(crate) openings: [i64; 64],
    ghost house: { (1 ≤ houses) × (houses ≤ 16) },
    ghost worker: { (1 ≤ workers) × (workers ≤ 8) },
    ghost patient: { (1 ≤ patience) × (patience ≤ 1000) },
    ghost kept: { (k : ℕ) → slice_index keepers k < workers },
    ghost ranged: { (k : ℕ) → InRange (slice_index_or openings k (pos 0)) },
}
