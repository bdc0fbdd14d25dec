// The text that is printed of a batch.
ghost use Rattle.std.specs.Prelude.{◌≡◌, IfOk, string_bytes};
ghost use Rattle.batch_check.specs.Printed.{refused_text, accepted_text, printed};

use batch::{BatchRefusal, OrderLine, Plan, Posting, Run, read_batch};
use roll::Roll;
use std::alloc::{AllocError, Global};

// How many records the tables hold.
const POSTINGS: usize = 200;

const ORDER_LINES: usize = 2_000;

const RUNS: usize = 1_000;

// What an accepted batch holds: the plan's numbers, and how many records are in each table.
#[derive(Clone, Copy, Debug, PartialEq, Eq)]
struct Summary {
    houses: u8,
    workers: u8,
    patience: u16,
    postings: usize,
    lines: usize,
    runs: usize,
}

fn refused_text(heap: Global, refusal: BatchRefusal) -> Result<String, AllocError>
    ensures { IfOk result (λ text. string_bytes text ≡ refused_text refusal) }
{
    format!(in heap;
        "E,{},{},{}\n",
        u8::from(refusal),
        refusal.line(),
        refusal.field()
    )
}

fn accepted_text(heap: Global, found: Summary) -> Result<String, AllocError>
    ensures { IfOk result (λ text. string_bytes text ≡ accepted_text found) }
{
    // In two halves, since no proof was found of one string of six numbers: not by the check, a deeper search or
    // `grind`.
    let mut text = format!(in heap; "B,{},{},{}", found.houses, found.workers, found.patience)?;
    let counts = format!(in heap; ",{},{},{}\n", found.postings, found.lines, found.runs)?;
    text.push_str(&counts)?;
    Ok(text)
}

// What is printed of these bytes: the plan's numbers and how many records each table holds, or why they are no batch.
pub fn check_text(heap: Global, bytes: &[u8]) -> Result<String, AllocError>
    ensures { IfOk result (λ text. string_bytes text ≡ printed bytes.now) }
{
    let mut plan = Plan::blank();
    let mut postings = [Posting { house: 0, first: 0 }; POSTINGS];
    let mut lines = [OrderLine::Set(0); ORDER_LINES];
    let mut runs = [Run {
        worker: 0,
        count: 1,
    }; RUNS];
    let mut postings = Roll::new(&mut postings);
    let mut lines = Roll::new(&mut lines);
    let mut runs = Roll::new(&mut runs);
    match read_batch(bytes, &mut plan, &mut postings, &mut lines, &mut runs) {
        Ok(()) => accepted_text(
            heap,
            Summary {
                houses: plan.houses(),
                workers: plan.workers(),
                patience: plan.patience(),
                postings: postings.len(),
                lines: lines.len(),
                runs: runs.len(),
            },
        ),
        Err(refusal) => refused_text(heap, refusal),
    }
}
