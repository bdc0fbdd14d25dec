// The reader: a text that is accepted fills the plan and the tables.
ghost use Rattle.std.specs.Prelude.{◌≡◌, ℕ, ◌<◌, [], ◌∷◌, length, Ok};
ghost use Rattle.roll.specs.Rolls.{items, capacity_of};
ghost use Rattle.batch.specs.Limits.{Allowed};
ghost use Rattle.batch.specs.Plans.{terms, plan_after};
ghost use Rattle.batch.specs.Reading.{batch, answered};
ghost use Rattle.batch.specs.Texts.{batch_text};
ghost use Rattle.batch.specs.Tables.{Grown, Tabled, posting_of, order_of, run_of, postings_in, orders_in, runs_in, sizes_of};

use crate::items::{BatchRefusal, Item};
use crate::judging::Reader;
use crate::plan::Plan;
use crate::progress::{Progress, Sizes};
use crate::reading::check;
use crate::records::{OrderLine, Posting, Run};
use roll::Roll;

// One more record.
fn keep<T: Copy>(roll: &mut Roll<'_, T>, item: T)
    requires { length (items roll.old) < capacity_of roll.old }
    ensures { Grown (item ∷ []) roll.old roll.new }
{
    let _ = roll.push(item);
}

// One more line into the tables, which have room for it. The rolls go one by one: a struct of the three was tried in three
// forms, and the borrow checker covers no call with it in `read_batch`.
fn put(
    sizes: Sizes,
    known: &Progress,
    item: Item,
    postings: &mut Roll<'_, Posting>,
    lines: &mut Roll<'_, OrderLine>,
    runs: &mut Roll<'_, Run>,
)
    requires allowed { Allowed sizes known.now item }
    requires postings { (length (items postings.old) ≡ known.now.postings) × (capacity_of postings.old ≡ sizes.postings) }
    requires lines { (length (items lines.old) ≡ known.now.orders) × (capacity_of lines.old ≡ sizes.orders) }
    requires runs { (length (items runs.old) ≡ known.now.runs) × (capacity_of runs.old ≡ sizes.runs) }
    ensures postings { Grown (posting_of known.now.seen known.now.orders item) postings.old postings.new }
    ensures lines { Grown (order_of item) lines.old lines.new }
    ensures runs { Grown (run_of item) runs.old runs.new }
{
    match item {
        Item::Posts => keep(
            postings,
            Posting {
                house: known.seen.saturating_sub(1),
                first: known.orders,
            },
        ),
        Item::Orders(order) => keep(lines, order),
        Item::Runs(run) => keep(runs, run),
        _ => {}
    }
}

// Fills the plan and the tables from a text that was accepted.
fn fill(
    sizes: Sizes,
    text: &[u8],
    plan: &mut Plan,
    postings: &mut Roll<'_, Posting>,
    lines: &mut Roll<'_, OrderLine>,
    runs: &mut Roll<'_, Run>,
)
    requires accepted { answered (batch sizes text.now) ≡ Ok tt }
    requires postings { capacity_of postings.old ≡ sizes.postings }
    requires lines { capacity_of lines.old ≡ sizes.orders }
    requires runs { capacity_of runs.old ≡ sizes.runs }
    ensures plan { terms plan.new ≡ plan_after (terms plan.old) (batch sizes text.now) }
    ensures postings { Tabled postings_in (batch sizes text.now) postings.old postings.new }
    ensures lines { Tabled orders_in (batch sizes text.now) lines.old lines.new }
    ensures runs { Tabled runs_in (batch sizes text.now) runs.old runs.new }
{
    *plan = Plan::blank();
    postings.clear();
    lines.clear();
    runs.clear();
    let mut reader = Reader::new(sizes, text);
    // A text with nothing left has no mark, so that it is no line.
    while let Ok(judged) = reader.judge() {
        plan.note(&reader.known, judged.item);
        put(sizes, &reader.known, judged.item, postings, lines, runs);
        reader.enter(judged);
    }
}

// Reads a batch into the plan and the tables. An accepted batch sets them anew, as new rolls over the same cells,
// of which those past the used ones stay. A refused one leaves the plan, the rolls and every cell as they were.
pub fn read_batch(
    text: &[u8],
    plan: &mut Plan,
    postings: &mut Roll<'_, Posting>,
    lines: &mut Roll<'_, OrderLine>,
    runs: &mut Roll<'_, Run>,
) -> Result<(), BatchRefusal>
    ensures answer { result ≡ answered (batch (sizes_of postings.old lines.old runs.old) text.now) }
    ensures plan { terms plan.new ≡ plan_after (terms plan.old) (batch (sizes_of postings.old lines.old runs.old) text.now) }
    ensures postings { Tabled postings_in (batch (sizes_of postings.old lines.old runs.old) text.now) postings.old postings.new }
    ensures lines { Tabled orders_in (batch (sizes_of postings.old lines.old runs.old) text.now) lines.old lines.new }
    ensures runs { Tabled runs_in (batch (sizes_of postings.old lines.old runs.old) text.now) runs.old runs.new }
    ensures written { result ≡ Ok tt → text.now ≡ batch_text (terms plan.new) (items postings.new) (items lines.new) (items runs.new) }
{
    let sizes = Sizes {
        postings: postings.capacity(),
        orders: lines.capacity(),
        runs: runs.capacity(),
    };
    check(sizes, text)?;
    fill(sizes, text, plan, postings, lines, runs);
    Ok(())
}
