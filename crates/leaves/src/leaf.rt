// An entry on a leaf of 160 bytes. Each field is written and read once.
ghost use Rattle.std.specs.Prelude.{◌≡◌, ℕ, ◌+◌, ◌*◌, ◌<◌, ◌≤◌, length, drop, Decides, slice_index};
ghost use Rattle.std.specs.List.{flat_map, slice_get};
ghost use Rattle.journal.specs.Entries.{posted};
ghost use Rattle.journal.specs.Readings.{id_of, given_in};
ghost use Rattle.leaves.specs.Leaf.{account_bytes, value_bytes, padded, leaf_of, signed_of, pairs_on, entry_on, IsLeaf, ReadsBack, WritesBack};

use journal::{Entry, MAX_PAIRS, Pair, PostingId, is_entry};
use std::array;

// How many bytes a leaf has.
pub const LEAF: usize = 160;

// How many of them stand before the accounts.
const HEAD: usize = 16;

// The accounts of the pairs, and then zeros. The loop writes only the pairs that count: `from_fn` would test each of the
// sixteen places, which costs more on most leaves.
fn account_places(pairs: &[Pair]) -> [u8; MAX_PAIRS]
    requires { length pairs.now ≤ 16 }
    ensures { result ≡ padded 16 (account_bytes pairs.now) }
{
    let mut places = [0; MAX_PAIRS];
    for (j, pair) in pairs.iter().enumerate() {
        places[j] = pair.account;
    }
    places
}

// The values of the pairs, and then zeros, by such a loop too.
fn value_places(pairs: &[Pair]) -> [[u8; 8]; MAX_PAIRS]
    requires { length pairs.now ≤ 16 }
    ensures { flat_map (λ bytes. bytes) result ≡ padded 128 (value_bytes pairs.now) }
{
    let mut places = [[0; 8]; MAX_PAIRS];
    for (j, pair) in pairs.iter().enumerate() {
        places[j] = pair.value.to_be_bytes();
    }
    places
}

// The leaf of an entry.
pub(crate) fn encode(e: &Entry) -> [u8; LEAF]
    ensures { result ≡ leaf_of (posted e.now) }
{
    let pairs = e.counted_pairs();
    let mut leaf = [0; LEAF];
    leaf[0] = e.house;
    leaf[1] = u8::from(e.void);
    leaf[2] = pairs.len() as u8;
    leaf[4..8].copy_from_slice(&e.number.to_be_bytes());
    leaf[8..16].copy_from_slice(&e.hand.to_be_bytes());
    leaf[16..32].copy_from_slice(&account_places(pairs));
    leaf[32..160].copy_from_slice(value_places(pairs).as_flattened());
    leaf
}

// Which posting the entry is of.
pub(crate) fn identity_on(leaf: &[u8; LEAF]) -> PostingId
    ensures { result ≡ id_of (entry_on leaf.now) }
{
    PostingId {
        house: leaf[0],
        number: u32::from_be_bytes(leaf[4..8].try_into().unwrap()),
    }
}

pub(crate) fn void_on(leaf: &[u8; LEAF]) -> bool
    ensures { result ≡ (entry_on leaf.now).void }
{
    leaf[1] == 1
}

pub(crate) fn hand_on(leaf: &[u8; LEAF]) -> i64
    ensures { result ≡ (entry_on leaf.now).hand }
{
    i64::from_be_bytes(leaf[8..16].try_into().unwrap())
}

// How many pairs the entry has.
pub(crate) fn count_on(leaf: &[u8; LEAF]) -> usize
    ensures value { result ≡ length (entry_on leaf.now).pairs }
    ensures few { result ≤ 16 }
{
    usize::from(leaf[2]).min(MAX_PAIRS)
}

// What stands at the place of pair `j`, be it a pair or padding.
fn pair_at(leaf: &[u8; LEAF], j: usize) -> Pair
    requires { j < 16 }
    ensures { result ≡ record { account = slice_index leaf.now (16 + j); value = signed_of (drop (32 + 8 * j) leaf.now) } }
{
    let at = 32 + 8 * j;
    Pair {
        account: leaf[16 + j],
        value: i64::from_be_bytes(leaf[at..at + 8].try_into().unwrap()),
    }
}

// Pair `j` of the entry.
pub(crate) fn pair_on(leaf: &[u8; LEAF], j: usize) -> Option<Pair>
    ensures { result ≡ slice_get (entry_on leaf.now).pairs j }
{
    (j < count_on(leaf)).then(|| pair_at(leaf, j))
}

// The value that the entry gives the account.
pub(crate) fn given_on(leaf: &[u8; LEAF], account: u8) -> Option<i64>
    ensures { result ≡ given_in (entry_on leaf.now).pairs account }
{
    let accounts = &leaf[16..16 + count_on(leaf)];
    accounts
        .iter()
        .position(|a| *a == account)
        .map(|j| pair_at(leaf, j).value)
}

fn all_pairs(leaf: &[u8; LEAF]) -> [Pair; MAX_PAIRS]
    ensures { result ≡ pairs_on 16 (drop 16 leaf.now) (drop 32 leaf.now) }
{
    array::from_fn(|j| pair_at(leaf, j))
}

// Reads a leaf.
pub(crate) fn decode(leaf: &[u8; LEAF]) -> Entry
    ensures says { posted result ≡ entry_on leaf.now }
    ensures count { result.count ≡ slice_index leaf.now 2 }
{
    let PostingId { house, number } = identity_on(leaf);
    Entry {
        house,
        number,
        void: void_on(leaf),
        hand: hand_on(leaf),
        count: leaf[2],
        pairs: all_pairs(leaf),
    }
}

// Whether the bytes are the leaf of the entry. It is apart from `is_leaf`, since there the compiler would also fill the
// room of the copy with zeros before each copy is made.
fn is_leaf_of(leaf: &[u8; LEAF], e: &Entry) -> bool
    ensures { Decides result (leaf_of (posted e.now) ≡ leaf.now) }
{
    encode(e) == *leaf
}

// Whether 160 bytes are the leaf of some entry: what they say is an entry, and its leaf has the same bytes.
pub(crate) fn is_leaf(leaf: &[u8; LEAF]) -> bool
    ensures { Decides result (IsLeaf leaf.now) }
{
    let e = decode(leaf);
    is_entry(&e) && is_leaf_of(leaf, &e)
}

// The laws of the leaf: its bytes are those of its parts, an entry reads back from its leaf, and a leaf is written back
// as it was.
pub fn leaf_laws() -> usize
    ensures bytes { result ≡ 160 }
    ensures reads { ReadsBack }
    ensures writes { WritesBack }
{
    HEAD + MAX_PAIRS + 8 * MAX_PAIRS
}
