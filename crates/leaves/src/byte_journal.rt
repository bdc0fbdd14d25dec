// Bytes of the host's memory held for filing.
ghost use Rattle.leaves.specs.Pages.{leaves_used, LeavesOfEntries};

// A journal in bytes: whole leaves of 160 bytes, the first 4,096 of them or all if they are fewer. Each leaf in use is
// the leaf of its entry. The memory is the lender's, so how many leaves of it are used stands beside it.
#[derive(Debug, Drop)]
pub struct Leaves<'a> {
    pub(crate) bytes: &'a mut [u8],
    pub(crate) used: usize,
    pub ghost good: { LeavesOfEntries (leaves_used used bytes.now) bytes.now },
}
