// Aggregates of one column of a set, row by row.
ghost use Rattle.std.specs.Prelude.{◌≡◌, ◌*◌, ◌<◌, ◌≤◌, T, length, nat_abs};
ghost use Rattle.value.specs.Exact.{inside_of};
ghost use Rattle.words.specs.Words.{room_of};
ghost use Rattle.aggregates.specs.Columns.{column_in, readable};
ghost use Rattle.aggregates.specs.Folds.{plus_of, total_of, chosen_of, better_of, extreme_of};

use crate::Sum;
use std::cmp::Ordering;
use value::Value;

// A sum and one value more. An absent one adds its numerator, which is 0, and is not counted.
#[tactic(auto, using(crate::proofs::SumLoop::plus_fits, crate::proofs::SumLoop::plus_is), unfolding(crate::specs::Folds::plus_of))]
pub(crate) fn plus(t: Sum, v: Value) -> Sum
    requires { (nat_abs t.value ≤ 256000000000000000) × (t.present ≤ 256) × T (inside_of v) }
    ensures { result ≡ plus_of t v }
{
    Sum {
        value: t.value + v.num,
        present: t.present + u64::from(value::present(v)),
    }
}

// The sum of the values of a column, and how many are present; None where a value is outside the bounds.
#[tactic(auto, using(crate::proofs::SumLoop::summing_begin, crate::proofs::SumLoop::summing_more, crate::proofs::SumLoop::summing_stop, crate::proofs::SumLoop::summing_end))]
pub(crate) fn sum_column(words: &[i64], n: usize, count: usize, c: usize) -> Option<Sum>
    requires { (n ≤ 4) × (count ≤ 256) × (c < n) × (count * n ≤ room_of (length words.now)) }
    ensures { result ≡ total_of (column_in n words.now c count) }
{
    let mut t = Sum {
        value: 0,
        present: 0,
    };
    let mut j = c;
    for r in 0..count {
        let v = words::read(words, j);
        if !value::inside(v) {
            return None;
        }
        t = plus(t, v);
        j += n;
    }
    Some(t)
}

// The greater or the lesser of two values.
#[tactic(auto, unfolding(crate::specs::Folds::chosen_of))]
pub(crate) fn chosen(x: Value, y: Value, greatest: bool) -> Value
    ensures { result ≡ chosen_of greatest x y }
{
    let o = if greatest {
        value::order(x, y)
    } else {
        value::order(y, x)
    };
    if o == Some(Ordering::Less) { y } else { x }
}

// The greater or the lesser of two values; the other one where one is absent.
#[tactic(auto, unfolding(crate::specs::Folds::better_of))]
pub(crate) fn better(x: Value, y: Value, greatest: bool) -> Value
    ensures { result ≡ better_of greatest x y }
{
    if !value::present(y) {
        return x;
    }
    if !value::present(x) {
        return y;
    }
    chosen(x, y, greatest)
}

// The greatest or the least value of a column; absent where none is present. None where a value is outside the bounds.
#[tactic(auto, using(crate::proofs::ExtremeLoop::choosing_begin, crate::proofs::ExtremeLoop::choosing_more, crate::proofs::ExtremeLoop::choosing_stop, crate::proofs::ExtremeLoop::choosing_end))]
pub(crate) fn extreme(
    words: &[i64],
    n: usize,
    count: usize,
    c: usize,
    greatest: bool,
) -> Option<Value>
    requires { (n ≤ 4) × (count ≤ 256) × (c < n) × (count * n ≤ room_of (length words.now)) }
    ensures { result ≡ extreme_of greatest (column_in n words.now c count) }
{
    let mut best = value::absent();
    let mut j = c;
    for r in 0..count {
        let v = words::read(words, j);
        if !value::inside(v) {
            return None;
        }
        best = better(best, v, greatest);
        j += n;
    }
    Some(best)
}

// At most 4 columns and 256 rows, room for them, and c one of the columns.
#[tactic(auto, unfolding(crate::specs::Columns::readable))]
pub(crate) fn can_read(n: usize, count: usize, words: usize, c: usize) -> bool
    ensures { result ≡ readable n count words c }
{
    n <= 4 && count <= 256 && c < n && count * n <= words
}
