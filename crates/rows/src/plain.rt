// Plain values: whole, and of at most 32 bits, as every value of a relation is. They are far inside the bounds of exact
// order, so that their numerators alone tell their order. Where they do not tell, the answer is None, and the caller
// compares by exact value.
ghost use Rattle.std.specs.Prelude.{◌≡◌, true, ◌+◌, ◌≤◌, length, Some, IfSome};
ghost use Rattle.value.specs.Exact.{order_of};
ghost use Rattle.words.specs.Words.{room_of};
ghost use Rattle.rows.specs.Insertion.{compare_from};
ghost use Rattle.rows.specs.Plain.{Plain, PlainTo};

use crate::places;
use std::cmp::Ordering;
use value::Value;

// Whole, and of at most 32 bits.
pub(crate) fn is_plain(v: Value) -> bool
    ensures { result ≡ true → Plain v }
{
    v.den == 1 && (-2147483648..=2147483647).contains(&v.num)
}

// How many columns of a row are plain before the first that is not. There are at most 4 columns: the loop says so, and
// the compiler writes it out.
#[tactic(auto, using(crate::proofs::PlainLaws::plain_none, crate::proofs::PlainLaws::plain_more))]
pub(crate) fn leading(row: &[i64], n: usize) -> usize
    requires { (n ≤ 4) × (n ≤ room_of (length row.now)) }
    ensures { (result ≤ n) × PlainTo result row.now }
{
    for c in 0..4usize {
        if c >= n || !is_plain(places::get(row, c)) {
            return c;
        }
    }
    4
}

// The order of a plain value and another; None where the other is not plain. An equal value is told first, and the rest
// by a test: a look-up takes 5 percent more instructions with the test of the other value first, 30 with `cmp`.
#[tactic(auto, using(crate::proofs::PlainLaws::plain_order, crate::proofs::PlainLaws::plain_equal))]
pub(crate) fn order(x: Value, y: Value) -> Option<Ordering>
    requires { Plain x }
    ensures { IfSome result (λ o. order_of x y ≡ Some o) }
{
    if y.den == 1 && x.num == y.num {
        return Some(Ordering::Equal);
    }
    if !is_plain(y) {
        return None;
    }
    if x.num < y.num {
        return Some(Ordering::Less);
    }
    Some(Ordering::Greater)
}

// The candidate row, whose first m columns are plain, against the row at a place. There are at most 4 columns: the loop
// says so, and the compiler writes it out.
#[tactic(auto, using(crate::proofs::CompareLoop::alike_begin, crate::proofs::CompareLoop::alike_more, crate::proofs::CompareLoop::alike_end, crate::proofs::PlainLaws::plain_stop))]
pub(crate) fn compare(row: &[i64], words: &[i64], at: usize, n: usize, m: usize) -> Option<Ordering>
    requires n_bound { (n ≤ 4) × (n ≤ room_of (length row.now)) × (at + n ≤ room_of (length words.now)) }
    requires m_le_n { (m ≤ n) × PlainTo m row.now }
    ensures { IfSome result (λ o. compare_from n row.now 0 words.now at ≡ Some o) }
{
    for c in 0..4usize {
        if c >= m {
            break;
        }
        let o = order(places::get(row, c), places::get(words, at + c));
        if o != Some(Ordering::Equal) {
            return o;
        }
    }
    if m < n { None } else { Some(Ordering::Equal) }
}
