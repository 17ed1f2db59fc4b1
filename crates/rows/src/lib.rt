// A set of rows in lent words (01, "Matching": "a row, added if not already present"; "Row r, column c of n columns
// stands at words 2 × (r × n + c) and the next"). The rows ascend by exact value, first column first, each once; the
// caller keeps their number, count, and lends the words with each call (crate `words`).
//
// Refused: no columns or over 4, over 256 rows, words too short for what is asked. A value outside the bounds of exact
// order is answered Outside. A call with a fault leaves the words as they were.
#![tactic(auto)]

mod places;
mod plain;
mod search;

ghost use Rattle.std.specs.Prelude.{◌≡◌, ◌≤◌, length};
ghost use Rattle.words.specs.Words.{room_of};
ghost use Rattle.rows.specs.Insertion.{find_of, as_new, added_of, words_after};

// A row's place: as row k, new there or there already.
#[derive(Clone, Copy, Debug, PartialEq, Eq)]
pub enum Place {
    New(usize),
    There(usize),
}

// Why a row has no place; Large: it would be the 257th.
#[derive(Clone, Copy, Debug, PartialEq, Eq)]
pub enum Fault {
    Outside,
    Large,
    Refused,
}

// The place of a row in a set, by bisection.
#[tactic(auto, unfolding(crate::specs::Insertion::find_of, crate::specs::Insertion::fits_in))]
pub fn find(words: &[i64], n: usize, count: usize, row: &[i64]) -> Result<Place, Fault>
    ensures { result ≡ find_of n count words.now row.now }
{
    if !search::fits(n, count, words::room(words.len()), words::room(row.len())) {
        return Err(Fault::Refused);
    }
    search::search(row, words, n, count)
}

// A row that is new put in as row k, unless it is the 257th or the words end before it would.
#[tactic(auto, unfolding(crate::specs::Insertion::as_new, crate::specs::Insertion::words_after, words::specs::Words::words_inserted, words::specs::Words::insertable))]
fn put_new(words: &mut [i64], n: usize, count: usize, k: usize, row: &[i64]) -> Result<Place, Fault>
    requires { (k ≤ count) × (n ≤ 4) × (count ≤ 256) × (n ≤ room_of (length row.now)) }
    ensures value { result ≡ as_new n count (room_of (length words.old)) k }
    ensures words_after { words.new ≡ words_after n count words.old row.now result }
{
    if count == 256 {
        return Err(Fault::Large);
    }
    if words::room(words.len()) < (count + 1) * n {
        return Err(Fault::Refused);
    }
    words::insert_values(words, k * n, count * n, row, n);
    Ok(Place::New(k))
}

// A row put in its place, unless it is there or would be the 257th.
#[tactic(auto, using(crate::proofs::CaseLaws::new_within), unfolding(crate::specs::Insertion::added_of, crate::specs::Insertion::words_after))]
pub fn insert(words: &mut [i64], n: usize, count: usize, row: &[i64]) -> Result<Place, Fault>
    ensures value { result ≡ added_of n count words.old row.now }
    ensures words_after { words.new ≡ words_after n count words.old row.now result }
{
    match find(words, n, count, row)? {
        Place::New(k) => put_new(words, n, count, k, row),
        Place::There(k) => Ok(Place::There(k)),
    }
}
