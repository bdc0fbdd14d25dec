// The tests of one line.
//
// All that reads a line is compiled into `judge_line`. Of a function that is called the item goes through memory and is put
// together again, which every line pays for; so those that the compiler would leave calls are `inline(always)`.
ghost use Rattle.std.specs.Prelude.{◌≡◌, ◌+◌, [], ◌∷◌, Some, Ok, Err, MatchOption, MatchResult};
ghost use Rattle.batch.specs.declared.items.Fault.TheVariants.{Form};
ghost use Rattle.batch.specs.declared.items.Item.TheVariants.{Posts};
ghost use Rattle.batch.specs.declared.cutting.Next.TheVariants.{Field, Line};
ghost use Rattle.batch.specs.Marks.{letter_mark, field_count, stands as stands_in};
ghost use Rattle.batch.specs.Progress.{start, entered};
ghost use Rattle.batch.specs.Rules.{account_in, begins as begins_in, opens as opens_in, keeps as keeps_in, worker_in, order_in, orders as orders_in, runs as runs_in, room_for, tested as tested_in, seated as seated_in};
ghost use Rattle.batch.specs.Cuts.{field_total, first_in, second_in, third_in};
ghost use Rattle.batch.specs.Judging.{Judges, JudgesLine, Accepts};

use crate::cutting::{Fields, Next, line_from};
use crate::items::{Fault, Head, Item, Kind, Mark, Opens};
use crate::numbers::{cents, natural};
use crate::progress::{Progress, Sizes, Stage};
use crate::records::{MOST_HOUSES, MOST_LINES, MOST_POSTINGS, OrderLine, Run};

// What the first line of a text says, and the text after it.
#[derive(Clone, Copy, Debug)]
pub struct Judged<'a> {
    pub item: Item,
    pub rest: &'a [u8],
}

// A reader between two lines: what it knows of the lines before, and the text that is left.
#[derive(Clone, Copy, Debug)]
pub struct Reader<'a> {
    pub sizes: Sizes,
    pub known: Progress,
    pub rest: &'a [u8],
}

impl TryFrom<char> for Mark {
    type Error = Fault;

    ghost try_from_gives = { λ letter mark. MatchOption (letter_mark letter) (mark ≡ Err Form) (λ m. mark ≡ Ok m) };

    // Called, so that the mark comes out of a table: in its caller each letter would be a jump of its own, and a processor
    // often guesses wrong which one comes next.
    #[inline(never)]
    fn try_from(letter: char) -> Result<Self, Fault> {
        match letter {
            'B' => Ok(Mark::Begin),
            'O' => Ok(Mark::Opening),
            'H' => Ok(Mark::House),
            'P' => Ok(Mark::Posting),
            'G' => Ok(Mark::Run),
            'T' => Ok(Mark::Order(Kind::Take)),
            'U' => Ok(Mark::Order(Kind::Join)),
            'S' => Ok(Mark::Order(Kind::Set)),
            'A' => Ok(Mark::Order(Kind::Raise)),
            'N' => Ok(Mark::Order(Kind::Need)),
            'W' => Ok(Mark::Order(Kind::Write)),
            _ => Err(Fault::Form),
        }
    }
}

impl Mark {
    // How many fields its lines have, the mark included.
    fn field_count(self) -> usize
        ensures { result ≡ field_count self }
    {
        match self {
            Mark::Begin => 4,
            Mark::Opening | Mark::House | Mark::Run => 3,
            Mark::Order(_) => 2,
            Mark::Posting => 1,
        }
    }
}

fn account_in(field: &[u8]) -> Option<u8>
    ensures { result ≡ account_in field.now }
{
    natural(field, 0, 63).map(|account| account as u8)
}

// One place reads the accounts of all kinds and one the cents: with a place for each kind such lines take longer.
fn order_in(kind: Kind, field: &[u8]) -> Option<OrderLine>
    ensures { result ≡ order_in kind field.now }
{
    Some(match kind {
        Kind::Take | Kind::Join | Kind::Write => {
            let account = account_in(field)?;
            match kind {
                Kind::Take => OrderLine::Take(account),
                Kind::Join => OrderLine::Join(account),
                _ => OrderLine::Write(account),
            }
        }
        Kind::Set | Kind::Raise | Kind::Need => {
            let cents = cents(field)?;
            match kind {
                Kind::Set => OrderLine::Set(cents),
                Kind::Raise => OrderLine::Raise(cents),
                _ => OrderLine::Need(cents),
            }
        }
    })
}

fn orders(kind: Kind, field: &[u8]) -> Result<Item, Fault>
    ensures { result ≡ orders_in kind field.now }
{
    order_in(kind, field)
        .map(Item::Orders)
        .ok_or(Fault::Field(2))
}

fn begins(houses: &[u8], workers: &[u8], patience: &[u8]) -> Result<Item, Fault>
    ensures { result ≡ begins_in houses.now workers.now patience.now }
{
    let houses = natural(houses, 1, MOST_HOUSES as u64).ok_or(Fault::Field(2))?;
    let workers = natural(workers, 1, 8).ok_or(Fault::Field(3))?;
    let patience = natural(patience, 1, 1000).ok_or(Fault::Field(4))?;
    Ok(Item::Begins(Head {
        houses: houses as u8,
        workers: workers as u8,
        patience: patience as u16,
    }))
}

impl<'a> Reader<'a> {
    pub(crate) fn new(sizes: Sizes, text: &'a [u8]) -> Self
        ensures sizes { result.sizes ≡ sizes }
        ensures known { result.known ≡ start }
        ensures rest { result.rest.now ≡ text.now }
    {
        Reader {
            sizes,
            known: Progress::start(),
            rest: text,
        }
    }

    fn stands(&self, mark: Mark) -> bool
        ensures { result ≡ stands_in self.now.known mark }
    {
        match (mark, self.known.stage) {
            (Mark::Begin, Stage::Start) => true,
            (Mark::Opening, Stage::Heading) => true,
            (Mark::House, Stage::Heading | Stage::Housing | Stage::Drafting) => true,
            (Mark::Posting, Stage::Housing | Stage::Drafting) => self.known.here < MOST_POSTINGS,
            (Mark::Order(_), Stage::Drafting) => self.known.lines < MOST_LINES,
            (Mark::Run, Stage::Housing | Stage::Drafting | Stage::Running) => true,
            _ => false,
        }
    }

    // Is there room in the table that it would go to?
    fn has_room(&self, item: Item) -> bool
        ensures { result ≡ room_for self.now.sizes self.now.known item }
    {
        match item {
            Item::Posts => self.known.postings < self.sizes.postings,
            Item::Orders(_) => self.known.orders < self.sizes.orders,
            Item::Runs(_) => self.known.runs < self.sizes.runs,
            _ => true,
        }
    }

    // An item that has room, or else the fault.
    #[inline(always)]
    fn seated(&self, item: Item) -> Result<Item, Fault>
        ensures { result ≡ seated_in self.now.sizes self.now.known (Ok item) }
    {
        // An `if`, since by `then_some` and `ok_or` lines take longer.
        if self.has_room(item) {
            Ok(item)
        } else {
            Err(Fault::Room)
        }
    }

    #[inline(always)]
    fn worker_in(&self, field: &[u8]) -> Option<u8>
        ensures { result ≡ worker_in self.now.known field.now }
    {
        natural(field, 0, self.known.workers.saturating_sub(1) as u64).map(|worker| worker as u8)
    }

    #[inline(always)]
    fn opens(&self, account: &[u8], value: &[u8]) -> Result<Item, Fault>
        ensures { result ≡ opens_in self.now.known account.now value.now }
    {
        let account = natural(account, self.known.account as u64, 63).ok_or(Fault::Field(2))?;
        let cents = cents(value)
            .filter(|cents| *cents != 0)
            .ok_or(Fault::Field(3))?;
        Ok(Item::Opened(Opens {
            account: account as u8,
            cents,
        }))
    }

    #[inline(always)]
    fn keeps(&self, house: &[u8], keeper: &[u8]) -> Result<Item, Fault>
        ensures { result ≡ keeps_in self.now.known house.now keeper.now }
    {
        let last = self.known.seen.min(self.known.houses.saturating_sub(1));
        natural(house, self.known.seen as u64, last as u64).ok_or(Fault::Field(2))?;
        let keeper = self.worker_in(keeper).ok_or(Fault::Field(3))?;
        Ok(Item::Kept(keeper))
    }

    #[inline(always)]
    fn runs(&self, worker: &[u8], count: &[u8]) -> Result<Item, Fault>
        ensures { result ≡ runs_in self.now.known worker.now count.now }
    {
        let worker = self.worker_in(worker).ok_or(Fault::Field(2))?;
        let count = natural(count, 1, 10_000).ok_or(Fault::Field(3))?;
        Ok(Item::Runs(Run {
            worker,
            count: count as u16,
        }))
    }

    // What a line of this mark and these fields says. The fields stand first in the pairs: where the line is cut their number
    // is known, so that each rule follows its own cut, and nothing is stored for fields that are not there. The place is tested in
    // each arm, since an answer from before the match would be kept and tested there, and room too, since after the match the items
    // would be told apart again. No line without fields comes here, as `judge` has told those; the rule has them all the same.
    fn tested(&self, mark: Mark, fields: &Fields<'_>) -> Result<Item, Fault>
        ensures { result ≡ tested_in self.now.sizes self.now.known (field_total fields.now + 1) (Some mark) (first_in fields.now) (second_in fields.now) (third_in fields.now) }
    {
        match (fields, mark) {
            (Fields::Zero, Mark::Posting) if self.stands(mark) => self.seated(Item::Posts),
            (Fields::One(field), Mark::Order(kind)) if self.stands(mark) => self.seated(orders(
                kind, field,
            )?),
            (Fields::Two(account, value), Mark::Opening) if self.stands(mark) => self.opens(
                account, value,
            ),
            (Fields::Two(house, keeper), Mark::House) if self.stands(mark) => self.keeps(
                house, keeper,
            ),
            (Fields::Two(worker, count), Mark::Run) if self.stands(mark) => self.seated(self.runs(
                worker, count,
            )?),
            (Fields::Three(houses, workers, patience), Mark::Begin) if self.stands(mark) => begins(
                houses, workers, patience,
            ),
            _ if fields.count() + 1 == mark.field_count() => Err(Fault::Place),
            _ => Err(Fault::Form),
        }
    }

    // Whether a line `P` may stand here and has room. The item is not answered, since it would be stored and read again.
    fn posts(&self) -> Result<(), Fault>
        ensures { MatchResult result (λ u. tested_in self.now.sizes self.now.known 1 (letter_mark 80) [] [] [] ≡ Ok Posts) (λ f. tested_in self.now.sizes self.now.known 1 (letter_mark 80) [] [] [] ≡ Err f) }
    {
        if !self.stands(Mark::Posting) {
            return Err(Fault::Place);
        }
        if !self.has_room(Item::Posts) {
            return Err(Fault::Room);
        }
        Ok(())
    }

    // What a line says that begins with this letter and a comma, after which the text comes.
    fn judge_line(&self, letter: u8, text: &'a [u8]) -> Result<Judged<'a>, Fault>
        ensures { JudgesLine self.now.sizes self.now.known letter (Field text.entry) result }
    {
        let mark = Mark::try_from(letter as char)?;
        let line = line_from(Next::Field(text));
        let item = self.tested(mark, &line.fields)?;
        Ok(Judged {
            item,
            rest: line.rest,
        })
    }

    // What a line `P` says, after which the text comes.
    fn judge_posting(&self, rest: &'a [u8]) -> Result<Judged<'a>, Fault>
        ensures { JudgesLine self.now.sizes self.now.known 80 (Line rest.entry) result }
    {
        self.posts()?;
        Ok(Judged {
            item: Item::Posts,
            rest,
        })
    }

    // What the first line of the text that is left says. Of all letters only `P` is a line by itself. Compiled into the loops of
    // its two callers, so that lines `P`, which are seen by their two bytes, pay for no call: they take little more than half of the
    // time.
    #[inline(always)]
    pub(crate) fn judge(&self) -> Result<Judged<'a>, Fault>
        ensures { Judges self.now.sizes self.now.known self.now.rest.now result }
    {
        match self.rest {
            [b'P', b'\n', rest @ ..] => self.judge_posting(rest),
            [b'P'] => self.judge_posting(&[]),
            [letter, b',', text @ ..] => self.judge_line(*letter, text),
            _ => Err(Fault::Form),
        }
    }

    // Past a line that was accepted.
    pub(crate) fn enter(&mut self, judged: Judged<'a>)
        requires { Accepts self.old.sizes self.old.known self.old.rest.now judged }
        ensures sizes { self.new.sizes ≡ self.old.sizes }
        ensures known { self.new.known ≡ entered self.old.known judged.entry.item }
        ensures rest { self.new.rest.now ≡ judged.entry.rest.now }
    {
        self.known.enter(judged.item, self.sizes);
        // Sliced anew, so that its address and its length are read one by one, as they were stored.
        self.rest = &judged.rest[..];
    }
}
