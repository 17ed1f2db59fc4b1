// Values in lent words (01, "Matching": "Row r, column c of n columns stands at words 2 × (r × n + c) and the next"). A
// place counts values: row r, column c of n is place r × n + c. Every function takes every buffer and every place: where
// the words are too short for what is asked, they stay as they were.
#![tactic(auto)]

mod moves;
mod places;

ghost use Rattle.std.specs.Prelude.{◌≡◌, length};
ghost use Rattle.words.specs.Words.{room_of, read_at, writable, words_with, copyable, words_copied};
ghost use Rattle.words.specs.Words.{insertable, words_inserted, zeroable, words_zeroed, front_zeroed, behind_zeroed};

use value::Value;

// How many values so many words hold.
pub fn room(words: usize) -> usize
    ensures { result ≡ room_of words }
{
    words / 2
}

// The value at place p; past the end 0/0, which is absent.
#[tactic(auto, unfolding(crate::specs::Words::read_at))]
pub fn read(words: &[i64], p: usize) -> Value
    ensures { result ≡ read_at words.now p }
{
    if p >= room(words.len()) {
        return value::absent();
    }
    places::get(words, p)
}

// A value written at place p, if there is room.
#[tactic(auto, unfolding(crate::specs::Words::words_with))]
pub fn write(words: &mut [i64], p: usize, v: Value) -> bool
    ensures value { result ≡ writable p words.old }
    ensures words_after { words.new ≡ words_with words.old p v }
{
    if p >= room(words.len()) {
        return false;
    }
    places::put(words, p, v);
    true
}

// Whether n values of a buffer that has so many can be put in at place p of another, its values from p to e moved up.
#[tactic(auto, unfolding(crate::specs::Words::insertable))]
fn can_insert(p: usize, e: usize, n: usize, held: usize, given: usize) -> bool
    ensures { result ≡ insertable p e n held given }
{
    n <= 4 && p <= e && n <= given && n <= held && e <= held - n
}

// The first n values of another buffer, at most 4, put in at place p, and the values from p to e moved up to make place
// for them; if there is room.
#[tactic(auto, unfolding(crate::specs::Words::words_inserted, crate::specs::Words::insertable))]
pub fn insert_values(words: &mut [i64], p: usize, e: usize, from: &[i64], n: usize) -> bool
    ensures value { result ≡ insertable p e n (room_of (length words.old)) (room_of (length from.now)) }
    ensures words_after { words.new ≡ words_inserted p e n from.now words.old }
{
    if !can_insert(p, e, n, room(words.len()), room(from.len())) {
        return false;
    }
    moves::shift(words, p, e, n);
    moves::put_row(words, p, from, n);
    true
}

// The first m values copied to the start of another buffer, if both have room for them.
#[tactic(auto, using(crate::proofs::WordLaws::overwritten), unfolding(crate::specs::Words::words_copied))]
pub fn copy(from: &[i64], to: &mut [i64], m: usize) -> bool
    ensures value { result ≡ copyable m from.now to.old }
    ensures to_after { to.new ≡ words_copied m from.now to.old }
{
    if room(from.len()) < m || room(to.len()) < m {
        return false;
    }
    moves::put_values(to, 0, from, m);
    true
}

// The first n words of a buffer made zero, if it has so many.
#[tactic(auto, unfolding(crate::specs::Words::words_zeroed, model::specs::Lists::overwrite))]
pub fn zero(words: &mut [i64], n: usize) -> bool
    ensures value { result ≡ zeroable n words.old }
    ensures words_after { words.new ≡ words_zeroed n words.old }
{
    if words.len() < n {
        return false;
    }
    words[..n].fill(0);
    true
}

// The first m values made zero, if there are so many.
#[tactic(auto, unfolding(crate::specs::Words::front_zeroed, model::specs::Lists::overwrite))]
pub fn zero_front(words: &mut [i64], m: usize)
    ensures { words.new ≡ front_zeroed m words.old }
{
    if room(words.len()) < m {
        return;
    }
    words[..2 * m].fill(0);
}

// All words behind the first m values made zero, if there are so many values.
#[tactic(auto, unfolding(crate::specs::Words::behind_zeroed))]
pub fn zero_behind(words: &mut [i64], m: usize)
    ensures { words.new ≡ behind_zeroed m words.old }
{
    if room(words.len()) < m {
        return;
    }
    words[2 * m..].fill(0);
}
