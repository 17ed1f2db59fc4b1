// Values moved and copied.
ghost use Rattle.std.specs.Prelude.{◌≡◌, ◌+◌, ◌≤◌, length};
ghost use Rattle.std.proofs.Math.Seq.{paste};
ghost use Rattle.words.specs.Words.{room_of, words_of, shifted};

use crate::places;

// The four values from place j on moved up by m places: all are read before the first is put.
#[tactic(auto, using(crate::proofs::ShiftLoop::moved_four))]
pub(crate) fn four(words: &mut [i64], j: usize, m: usize)
    requires { j + 4 + m ≤ room_of (length words.old) }
    ensures { words.new ≡ shifted (words_of j) (words_of (j + 4)) (words_of m) words.old }
{
    let a = places::get(words, j);
    let b = places::get(words, j + 1);
    let c = places::get(words, j + 2);
    let d = places::get(words, j + 3);
    places::put(words, j + 3 + m, d);
    places::put(words, j + 2 + m, c);
    places::put(words, j + 1 + m, b);
    places::put(words, j + m, a);
}

// The values below place e moved up by m places, the last four first, while four are left from place p on: the place
// from which on they are moved.
#[tactic(auto, using(crate::proofs::ShiftLoop::shifted_none, crate::proofs::ShiftLoop::shifted_join))]
pub(crate) fn fours(words: &mut [i64], p: usize, e: usize, m: usize) -> usize
    requires { (p ≤ e) × (e + m ≤ room_of (length words.old)) }
    ensures { (p ≤ result) × (result ≤ e)
        × (words.new ≡ shifted (words_of result) (words_of e) (words_of m) words.old) }
{
    let mut j: usize = e;
    while p + 4 <= j {
        j -= 4;
        four(words, j, m);
    }
    j
}

// The values from place p to place e moved up by m places, the last first: by fours, then the rest one by one.
#[tactic(auto, using(crate::proofs::ShiftLoop::moved_begin, crate::proofs::ShiftLoop::moved_value))]
pub(crate) fn shift(words: &mut [i64], p: usize, e: usize, m: usize)
    requires { (p ≤ e) × (e + m ≤ room_of (length words.old)) }
    ensures { words.new ≡ shifted (words_of p) (words_of e) (words_of m) words.old }
{
    let mut j = fours(words, p, e, m);
    while p < j {
        j -= 1;
        let v = places::get(words, j);
        places::put(words, j + m, v);
    }
}

// A row of n columns put at place p. There are at most 4 columns: the loop says so, and the compiler writes it out.
#[tactic(auto, using(crate::proofs::WordLaws::paste_value))]
pub(crate) fn put_row(words: &mut [i64], p: usize, row: &[i64], n: usize)
    requires { (n ≤ 4) × (p + n ≤ room_of (length words.old)) × (n ≤ room_of (length row.now)) }
    ensures { words.new ≡ paste words.old (words_of p) row.now (words_of n) }
{
    for c in 0..4usize {
        if c >= n {
            return;
        }
        places::put(words, p + c, places::get(row, c));
    }
}

// The first m values of another buffer put at place p, value by value: of a slice copied whole the compiler makes a call of
// `memmove`, which nothing else in the archive for C needs.
#[tactic(auto, using(crate::proofs::WordLaws::paste_value))]
pub(crate) fn put_values(words: &mut [i64], p: usize, from: &[i64], m: usize)
    requires { (p + m ≤ room_of (length words.old)) × (m ≤ room_of (length from.now)) }
    ensures { words.new ≡ paste words.old (words_of p) from.now (words_of m) }
{
    for j in 0..m {
        places::put(words, p + j, places::get(from, j));
    }
}
