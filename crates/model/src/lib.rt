// The scope paper (01) as definitions, in specs/, and their laws, in proofs/. Of code there is only what the
// definitions speak of: the answer of a run, and the cases that lead to it.
#![tactic(auto)]

ghost use Rattle.std.specs.Prelude.{◌≡◌};
ghost use Rattle.model.specs.Numbers.{number_of, number_in};
ghost use Rattle.model.specs.Outcome.{figures_of};

// The causes of refusal up to 11, in the paper's order (01, "Causes of refusal").
#[derive(Clone, Copy, Debug, PartialEq, Eq)]
pub enum Refusal {
    // A work buffer is short.
    WorkShort,
    // The result is short.
    ResultShort,
    // The data's counts, length or layout.
    Layout,
    // A value of the data is out of range.
    Value,
    // The question's bytes are no records in order.
    Records,
    // A count of the question is past its limit.
    Limits,
    // A table, column, variable number, parent or block is absent.
    Absent,
    // A variable stands where none of its name can.
    Variable,
    // The sum or average of a ratio column.
    Ratio,
    // A constant is out of range.
    Constant,
    // The plan is malformed or not admitted.
    Plan,
}

impl Refusal {
    // The paper's number.
    pub fn number(self) -> u8
        ensures { result ≡ number_of self }
    {
        match self {
            Refusal::WorkShort => 1,
            Refusal::ResultShort => 2,
            Refusal::Layout => 3,
            Refusal::Value => 4,
            Refusal::Records => 5,
            Refusal::Limits => 6,
            Refusal::Absent => 7,
            Refusal::Variable => 8,
            Refusal::Ratio => 9,
            Refusal::Constant => 10,
            Refusal::Plan => 11,
        }
    }
}

// The paper's number of what a check tells, 0 where it refuses nothing.
pub fn number(told: Result<(), Refusal>) -> u8
    ensures { result ≡ number_in told }
{
    match told {
        Ok(()) => 0,
        Err(r) => r.number(),
    }
}

// What a run answers (01, "Causes of refusal"): the number is 0 if it is accepted.
#[derive(Clone, Copy)]
pub struct Answer {
    pub number: u8,
    pub rows: usize,
    pub columns: usize,
    pub trials: u64,
}

// How a run ends: it gives its rows, or it is refused by a cause from 1 to 11, by number 12 or by number 13. The cause is
// a number here, since the definition of an answer (specs/Answer, `answer_of`) takes what `first_of` finds.
#[derive(Clone, Copy)]
pub enum Outcome {
    Given {
        rows: usize,
        columns: usize,
        trials: u64,
    },
    Refused {
        number: u8,
    },
    OverBudget {
        budget: u64,
    },
    TooLarge {
        trials: u64,
    },
}

// The paper's number and figures for each way to end.
pub fn figures(o: Outcome) -> Answer
    ensures { result ≡ figures_of o }
{
    match o {
        Outcome::Given {
            rows,
            columns,
            trials,
        } => Answer {
            number: 0,
            rows,
            columns,
            trials,
        },
        Outcome::Refused { number } => Answer {
            number,
            rows: 0,
            columns: 0,
            trials: 0,
        },
        Outcome::OverBudget { budget } => Answer {
            number: 12,
            rows: 0,
            columns: 0,
            trials: budget,
        },
        Outcome::TooLarge { trials } => Answer {
            number: 13,
            rows: 0,
            columns: 0,
            trials,
        },
    }
}
