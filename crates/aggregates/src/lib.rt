// Aggregates of a column of a set of rows in lent words (01, "Matching": "row by row"). The rows stand one after the
// other, as the crate `words` has them; they need not ascend. Sum, min, max and ave pass over absent values (No. 3); of
// none that remains the sum is zero and the others are absent. Count counts rows.
//
// Refused: over 4 columns, over 256 rows, a column past the last, words too short for the rows. A value outside the
// bounds of exact order is answered Outside.
#![tactic(auto)]

mod column;

ghost use Rattle.std.specs.Prelude.{◌≡◌};
ghost use Rattle.aggregates.specs.Columns.{aggregate_in};

use value::Value;

// The sum so far of a column, and how many of its values are present.
#[derive(Clone, Copy)]
pub(crate) struct Sum {
    pub(crate) value: i64,
    pub(crate) present: u64,
}

// Why a column has no aggregate.
#[derive(Clone, Copy, Debug, PartialEq, Eq)]
pub enum Fault {
    Outside,
    Refused,
}

// Function f (0 count, 1 sum, 2 min, 3 max, 4 and above ave) of column c of a set. Functions are given by their numbers,
// as the question's bytes give them.
#[tactic(auto, using(crate::proofs::FunctionLaws::over_count, crate::proofs::FunctionLaws::over_sum_none, crate::proofs::FunctionLaws::over_sum, crate::proofs::FunctionLaws::over_min, crate::proofs::FunctionLaws::over_max, crate::proofs::FunctionLaws::over_average_none, crate::proofs::FunctionLaws::average_in), unfolding(crate::specs::Columns::aggregate_in, crate::specs::Columns::readable))]
pub fn aggregate_of(words: &[i64], n: usize, count: usize, f: u8, c: usize) -> Result<Value, Fault>
    ensures { result ≡ aggregate_in f c n count words.now }
{
    if !column::can_read(n, count, words::room(words.len()), c) {
        return Err(Fault::Refused);
    }
    match f {
        0 => Ok(Value {
            num: count as i64,
            den: 1,
        }),
        1 => {
            let s = column::sum_column(words, n, count, c).ok_or(Fault::Outside)?;
            Ok(Value {
                num: s.value,
                den: 1,
            })
        }
        2 => column::extreme(words, n, count, c, false).ok_or(Fault::Outside),
        3 => column::extreme(words, n, count, c, true).ok_or(Fault::Outside),
        _ => {
            let s = column::sum_column(words, n, count, c).ok_or(Fault::Outside)?;
            value::average(s.value, s.present).ok_or(Fault::Outside)
        }
    }
}
