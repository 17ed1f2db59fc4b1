// The place of a row among the rows of a set, by bisection: at most 9 rows are compared for 256 rows
// (proofs/Cost.antt: `nine_comparisons`). Rows are compared by plain integers as long as these tell; from the first row
// where they do not, that row again and all others are compared by exact value. The answer is the same without the
// plain part.
ghost use Rattle.std.specs.Prelude.{◌≡◌, ◌+◌, ◌*◌, ◌-◌, ◌≤◌, length};
ghost use Rattle.words.specs.Words.{room_of};
ghost use Rattle.rows.specs.Insertion.{compare_from, bisect, at_place, fits_in};

use crate::{Fault, Place, places, plain};
use std::cmp::Ordering;

// The candidate row against the row at a place, by exact value: the order of the first column in which they differ.
#[tactic(auto, using(crate::proofs::CompareLoop::alike_begin, crate::proofs::CompareLoop::alike_more, crate::proofs::CompareLoop::alike_stop, crate::proofs::CompareLoop::alike_end))]
pub(crate) fn compare_row(row: &[i64], words: &[i64], at: usize, n: usize) -> Option<Ordering>
    requires { (n ≤ room_of (length row.now)) × (at + n ≤ room_of (length words.now)) }
    ensures { result ≡ compare_from n row.now 0 words.now at }
{
    for c in 0..n {
        let o = value::order(places::get(row, c), places::get(words, at + c));
        if o != Some(Ordering::Equal) {
            return o;
        }
    }
    Some(Ordering::Equal)
}

// The bisection between rows from and to, by exact value.
#[tactic(auto, using(crate::proofs::SearchLoop::step_none, crate::proofs::SearchLoop::step_less, crate::proofs::SearchLoop::step_equal, crate::proofs::SearchLoop::step_greater, crate::proofs::SearchLoop::bisect_done, crate::proofs::CaseLaws::place_fits), unfolding(crate::specs::Insertion::at_place))]
pub(crate) fn finish(
    row: &[i64],
    words: &[i64],
    n: usize,
    from: usize,
    to: usize,
) -> Result<Place, Fault>
    requires n_bound { (n ≤ 4) × (from ≤ to) × (to ≤ 256) }
    requires n_bound_2 { (n ≤ room_of (length row.now)) × (to * n ≤ room_of (length words.now)) }
    ensures { result ≡ bisect (at_place n row.now words.now) (to - from) from to }
{
    let mut lo = from;
    let mut hi = to;
    while lo < hi {
        let mid = lo + (hi - lo) / 2;
        match compare_row(row, words, mid * n, n).ok_or(Fault::Outside)? {
            Ordering::Less => hi = mid,
            Ordering::Equal => return Ok(Place::There(mid)),
            Ordering::Greater => lo = mid + 1,
        }
    }
    Ok(Place::New(lo))
}

// The bisection between the first and the last of count rows: by plain integers, and by exact value from the first row
// on where these do not tell. One loop with both comparisons takes 8 percent more instructions for a look-up.
#[tactic(auto, using(crate::proofs::SearchLoop::step_none, crate::proofs::SearchLoop::step_less, crate::proofs::SearchLoop::step_equal, crate::proofs::SearchLoop::step_greater, crate::proofs::SearchLoop::bisect_done, crate::proofs::CaseLaws::place_fits), unfolding(crate::specs::Insertion::at_place))]
pub(crate) fn search(row: &[i64], words: &[i64], n: usize, count: usize) -> Result<Place, Fault>
    requires n_bound { (n ≤ 4) × (count ≤ 256) }
    requires n_bound_2 { (n ≤ room_of (length row.now)) × (count * n ≤ room_of (length words.now)) }
    ensures { result ≡ bisect (at_place n row.now words.now) count 0 count }
{
    let m = plain::leading(row, n);
    let mut lo = 0;
    let mut hi = count;
    while lo < hi {
        let mid = lo + (hi - lo) / 2;
        match plain::compare(row, words, mid * n, n, m) {
            None => return finish(row, words, n, lo, hi),
            Some(Ordering::Less) => hi = mid,
            Some(Ordering::Equal) => return Ok(Place::There(mid)),
            Some(Ordering::Greater) => lo = mid + 1,
        }
    }
    Ok(Place::New(lo))
}

// 1 to 4 columns, at most 256 rows, and room for them and for a candidate row.
#[tactic(auto, unfolding(crate::specs::Insertion::fits_in))]
pub(crate) fn fits(n: usize, count: usize, words: usize, row: usize) -> bool
    ensures { result ≡ fits_in n count words row }
{
    1 <= n && n <= 4 && count <= 256 && n <= row && count * n <= words
}
