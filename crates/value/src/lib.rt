// Exact values (01, "Values are whole or ratio"; "Comparison and equality are exact"): a numerator over a denominator,
// compared by cross products in 64 bits; or absent, 0 over 0 (No. 3): it stands before every other value and meets no
// operator.
//
// Two values are compared where both are inside the bounds: numerator at most 10^15 in size, denominator 1 to 256, or
// absent. Each value of an evaluated set is so (aggregates: proofs/FairSets.antt). Elsewhere the answer is None.
// Every average of some values is in lowest terms with a positive denominator; zero is 0/1.
#![tactic(auto)]

ghost use Rattle.std.specs.Prelude.{cond, ◌≡◌, ◌*◌, ◌<◌, ◌≤◌, T, nat_abs, ◌*ℤ◌};
ghost use Rattle.chart.specs.Chart.{ordering_of, relation_by};
ghost use Rattle.chart.specs.declared.Relation.TheVariants.{Absent};
ghost use Rattle.model.specs.Value.{whole, absent, present, gcd, compare_z, order};
ghost use Rattle.value.specs.Exact.{exact, in_words, inside_of, order_of, holds_of, empty_of};
ghost use Rattle.value.specs.Exact.{average_of, lowest_of};

use chart::Relation;
use std::cmp::Ordering;

// The largest numerator in size inside the bounds.
const LARGEST: i64 = 1000000000000000;

// A value: num / den; absent: 0 / 0.
#[derive(Clone, Copy)]
pub struct Value {
    pub num: i64,
    pub den: i64,
}

// Absent: what min, max and ave of no values are.
pub fn absent() -> Value
    ensures { result ≡ in_words absent }
{
    Value { num: 0, den: 0 }
}

// A value is present: its denominator is not 0.
#[tactic(auto, unfolding(model::specs::Value::present))]
pub fn present(x: Value) -> bool
    ensures { result ≡ present (exact x) }
{
    x.den != 0
}

// The greatest common divisor, by Euclid's recursion: the second number falls at each call.
pub fn gcd(a: u64, b: u64) -> u64
    ensures { result ≡ gcd a b }
{
    if b == 0 { a } else { gcd(b, a % b) }
}

// Inside the bounds: there a cross product fits 64 bits. With denominator 0 only absent is.
#[tactic(auto, unfolding(crate::specs::Exact::inside_of))]
pub fn inside(x: Value) -> bool
    ensures { result ≡ inside_of x }
{
    if !present(x) {
        return x.num == 0;
    }
    (-LARGEST..=LARGEST).contains(&x.num) && (1..=256).contains(&x.den)
}

// The order of n / d and m / e, by cross products.
fn cross(n: i64, d: i64, m: i64, e: i64) -> Ordering
    requires n_bound { (nat_abs n ≤ 1000000000000000) × (nat_abs e ≤ 256) }
    requires m_bound { (nat_abs m ≤ 1000000000000000) × (nat_abs d ≤ 256) }
    ensures { result ≡ ordering_of (compare_z (n *ℤ e) (m *ℤ d)) }
{
    let a = n * e;
    let b = m * d;
    a.cmp(&b)
}

// The order of two values inside the bounds. Where one is absent the denominators tell: 0 is before all others.
fn order_inside(x: Value, y: Value) -> Ordering
    requires { T (inside_of x) × T (inside_of y) }
    ensures { result ≡ ordering_of (order (exact x) (exact y)) }
{
    if present(x) & present(y) {
        return cross(x.num, x.den, y.num, y.den);
    }
    x.den.cmp(&y.den)
}

// The exact order of two whole values: no product is needed.
#[tactic(auto, using(crate::proofs::Laws::wholes_some), unfolding(crate::specs::Exact::order_of, crate::specs::Exact::inside_of, model::specs::Value::present))]
fn order_wholes(n: i64, m: i64) -> Option<Ordering>
    ensures { result ≡ order_of (in_words (whole n)) (in_words (whole m)) }
{
    if !(-LARGEST..=LARGEST).contains(&n) || !(-LARGEST..=LARGEST).contains(&m) {
        return None;
    }
    Some(n.cmp(&m))
}

// The exact order of two values, where both are inside the bounds.
#[tactic(auto, unfolding(crate::specs::Exact::order_of))]
pub fn order(x: Value, y: Value) -> Option<Ordering>
    ensures { result ≡ order_of x y }
{
    if (x.den == 1) & (y.den == 1) {
        return order_wholes(x.num, y.num);
    }
    if !inside(x) || !inside(y) {
        return None;
    }
    Some(order_inside(x, y))
}

// How two values that compare so stand to each other, where both are present or not.
fn standing(o: Ordering, both: bool) -> Relation
    ensures { result ≡ cond both (relation_by o) Absent }
{
    match (both, o) {
        (true, Ordering::Less) => Relation::Less,
        (true, Ordering::Equal) => Relation::Equal,
        (true, Ordering::Greater) => Relation::Greater,
        (false, _) => Relation::Absent,
    }
}

// Whether two values meet operator op, where both are inside the bounds; an absent one meets none.
#[tactic(auto, using(crate::proofs::Laws::holds_none, crate::proofs::Laws::holds_some))]
pub fn holds(op: u8, x: Value, y: Value) -> Option<bool>
    ensures { result ≡ holds_of op x y }
{
    let o = order(x, y)?;
    Some(chart::meets(op, standing(o, present(x) & present(y))))
}

// A ratio divided through by the greatest common divisor.
#[tactic(auto, using(crate::proofs::Averaging::divisor_pos, crate::proofs::Averaging::divisor_few, crate::proofs::Averaging::divided_fits, crate::proofs::Averaging::low_fits, crate::proofs::Averaging::lowest_is))]
fn lowest(num: i64, den: u64) -> Value
    requires { (nat_abs num ≤ 256000000000000000) × (0 < den) × (den ≤ 256) }
    ensures { result ≡ lowest_of num den }
{
    let g = gcd(num.unsigned_abs(), den);
    Value {
        num: num / (g as i64),
        den: (den / g) as i64,
    }
}

// Function f (0 count, 1 sum, 2 min, 3 max, 4 and above ave) of an empty set (No. 3): "Count and sum stay zero", the
// others are absent.
#[tactic(auto, unfolding(crate::specs::Exact::empty_of))]
pub fn empty_of(f: u8) -> Value
    ensures { result ≡ empty_of f }
{
    if f < 2 {
        return Value { num: 0, den: 1 };
    }
    absent()
}

// A sum over a count, in lowest terms; absent over none. None: over 256 values, or a sum over 256 × 10^15 in size.
#[tactic(auto, unfolding(crate::specs::Exact::average_of))]
pub fn average(sum: i64, count: u64) -> Option<Value>
    ensures { result ≡ average_of sum count }
{
    if count == 0 {
        return Some(absent());
    }
    if count > 256 || !(-256 * LARGEST..=256 * LARGEST).contains(&sum) {
        return None;
    }
    Some(lowest(sum, count))
}
