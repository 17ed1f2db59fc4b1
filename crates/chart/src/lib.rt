// The chart of the operators (No. 7). Read it next to item 5 of section 3 of document 004: "The condition box is filled
// with two elements connected by one of the operators =, ≠, <, ≤, >, ≥."
//
// The values of the two elements stand to each other in one of four ways (`Relation`). For each operator and each of
// less, equal and greater there is a case, eighteen in all (`Case`). Its name says what the operator asks and how the
// values stand: `AtMostWhenEqual` is ≤ between two equal values. Absent is a case beside them, the same for all six.
// `answer` is the chart, a line for each case. `case_of` finds the case.
#![tactic(auto)]

ghost use Rattle.std.specs.Prelude.{◌≡◌};
ghost use Rattle.model.specs.Value.{compare_z};
ghost use Rattle.chart.specs.Chart.{relation_of, case_of, chart_of};

use std::cmp::Ordering;

// How the first value stands to the second. Absent: one of them, or both, is absent. An Option<Ordering> would not name
// it: absent is one of the chart's four (No. 7).
#[derive(Clone, Copy)]
pub enum Relation {
    Less,
    Equal,
    Greater,
    Absent,
}

// What the operator asks, and how the two values stand.
#[derive(Clone, Copy)]
pub enum Case {
    // =
    EqualWhenLess,
    EqualWhenEqual,
    EqualWhenGreater,
    // ≠
    UnequalWhenLess,
    UnequalWhenEqual,
    UnequalWhenGreater,
    // <
    LessWhenLess,
    LessWhenEqual,
    LessWhenGreater,
    // ≤
    AtMostWhenLess,
    AtMostWhenEqual,
    AtMostWhenGreater,
    // >
    GreaterWhenLess,
    GreaterWhenEqual,
    GreaterWhenGreater,
    // ≥
    AtLeastWhenLess,
    AtLeastWhenEqual,
    AtLeastWhenGreater,
    // all six
    AnyWhenAbsent,
}

// The chart: whether a condition is met.
pub fn answer(c: Case) -> bool
    ensures { result ≡ chart_of c }
{
    match c {
        // =
        Case::EqualWhenLess => false,
        Case::EqualWhenEqual => true,
        Case::EqualWhenGreater => false,
        // ≠
        Case::UnequalWhenLess => true,
        Case::UnequalWhenEqual => false,
        Case::UnequalWhenGreater => true,
        // <
        Case::LessWhenLess => true,
        Case::LessWhenEqual => false,
        Case::LessWhenGreater => false,
        // ≤
        Case::AtMostWhenLess => true,
        Case::AtMostWhenEqual => true,
        Case::AtMostWhenGreater => false,
        // >
        Case::GreaterWhenLess => false,
        Case::GreaterWhenEqual => false,
        Case::GreaterWhenGreater => true,
        // ≥
        Case::AtLeastWhenLess => false,
        Case::AtLeastWhenEqual => true,
        Case::AtLeastWhenGreater => true,
        // all six
        Case::AnyWhenAbsent => false,
    }
}

// The case of an operator and a relation. The operator is given by its number; one over 5, which no accepted question
// has, is read as ≥.
pub fn case_of(op: u8, r: Relation) -> Case
    ensures { result ≡ case_of op r }
{
    match (op, r) {
        (_, Relation::Absent) => Case::AnyWhenAbsent,
        // =
        (0, Relation::Less) => Case::EqualWhenLess,
        (0, Relation::Equal) => Case::EqualWhenEqual,
        (0, Relation::Greater) => Case::EqualWhenGreater,
        // ≠
        (1, Relation::Less) => Case::UnequalWhenLess,
        (1, Relation::Equal) => Case::UnequalWhenEqual,
        (1, Relation::Greater) => Case::UnequalWhenGreater,
        // <
        (2, Relation::Less) => Case::LessWhenLess,
        (2, Relation::Equal) => Case::LessWhenEqual,
        (2, Relation::Greater) => Case::LessWhenGreater,
        // ≤
        (3, Relation::Less) => Case::AtMostWhenLess,
        (3, Relation::Equal) => Case::AtMostWhenEqual,
        (3, Relation::Greater) => Case::AtMostWhenGreater,
        // >
        (4, Relation::Less) => Case::GreaterWhenLess,
        (4, Relation::Equal) => Case::GreaterWhenEqual,
        (4, Relation::Greater) => Case::GreaterWhenGreater,
        // ≥
        (_, Relation::Less) => Case::AtLeastWhenLess,
        (_, Relation::Equal) => Case::AtLeastWhenEqual,
        (_, Relation::Greater) => Case::AtLeastWhenGreater,
    }
}

// Whether two values that stand so meet an operator.
pub fn meets(op: u8, r: Relation) -> bool
    ensures { result ≡ chart_of (case_of op r) }
{
    answer(case_of(op, r))
}

// How two integers stand to each other: they are never absent.
pub fn integers(x: i64, y: i64) -> Relation
    ensures { result ≡ relation_of (compare_z x y) }
{
    match x.cmp(&y) {
        Ordering::Less => Relation::Less,
        Ordering::Equal => Relation::Equal,
        Ordering::Greater => Relation::Greater,
    }
}
