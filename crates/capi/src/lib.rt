// The engine as C and Rust programs link it: numbers and slices only, a slice as a pointer and its length. An answer's
// four figures go into lent words: number, rows, columns, trials. Where these are fewer than four, that is number 1, as
// of a work buffer that is short, and nothing is changed anywhere. The index of a column and the chart of the operators
// are offered beside a run.
#![tactic(auto)]

ghost use Rattle.std.specs.Prelude.{◌≤◌, cond, ◌≡◌, length};
ghost use Rattle.chart.specs.Chart.{case_of, chart_of};
ghost use Rattle.engine.specs.Runs.{lengths_of};
ghost use Rattle.model.specs.Answer.{answer_of, result_after, sets_after, files_after, indexes_after};
ghost use Rattle.model.specs.Index.{index_number, index_after};
ghost use Rattle.model.specs.Lists.{overwrite};
ghost use Rattle.capi.specs.Calls.{figures_in, given, relation_numbered, chart_number, chart_after};

use chart::Relation;
use model::{Answer, Refusal};

// The figures of an answer put into the first four words.
fn put_figures(a: Answer, figures: &mut [u64])
    requires { 4 ≤ length figures.old }
    ensures { figures.new ≡ overwrite (figures_in a) figures.old }
{
    figures[0] = u64::from(a.number);
    figures[1] = a.rows as u64;
    figures[2] = a.columns as u64;
    figures[3] = a.trials;
}

// A run (engine::run): its figures in lent words, its number returned too.
#[unsafe(no_mangle)]
pub extern "C" fn abe_run(
    words: &[i32],
    question: &[u8],
    plan: &[u8],
    budget: u64,
    sets: &mut [i64],
    files: &mut [i64],
    indexes: &mut [u16],
    res: &mut [i64],
    figures: &mut [u64],
) -> u8
    ensures number { result ≡ given (length figures.old)
        (answer_of (lengths_of res.old sets.old files.old indexes.old)
        words.now question.now plan.now budget).number 1 }
    ensures figures { figures.new ≡ given (length figures.old)
        (overwrite (figures_in
        (answer_of (lengths_of res.old sets.old files.old indexes.old)
        words.now question.now plan.now budget)) figures.old)
        figures.old }
    ensures res { res.new ≡ given (length figures.old)
        (result_after (lengths_of res.old sets.old files.old indexes.old)
        words.now question.now plan.now budget res.old)
        res.old }
    ensures sets { sets.new ≡ given (length figures.old)
        (sets_after
        (answer_of (lengths_of res.old sets.old files.old indexes.old)
        words.now question.now plan.now budget) sets.old)
        sets.old }
    ensures files { files.new ≡ given (length figures.old)
        (files_after
        (answer_of (lengths_of res.old sets.old files.old indexes.old)
        words.now question.now plan.now budget) files.old)
        files.old }
    ensures indexes { indexes.new ≡ given (length figures.old)
        (indexes_after
        (answer_of (lengths_of res.old sets.old files.old indexes.old)
        words.now question.now plan.now budget) indexes.old)
        indexes.old }
{
    if figures.len() < 4 {
        return 1;
    }
    let a = engine::run(words, question, plan, budget, sets, files, indexes, res);
    put_figures(a, figures);
    a.number
}

// The index of a column (indexes::index), a table or column past 255 being absent.
#[unsafe(no_mangle)]
pub extern "C" fn abe_index(words: &[i32], table: u32, column: u32, out: &mut [u16]) -> u8
    ensures number { result ≡ index_number words.now table column (length out.old) }
    ensures words { out.new ≡ index_after words.now table column out.old }
{
    if let (Ok(t), Ok(c)) = (u8::try_from(table), u8::try_from(column)) {
        return model::number(indexes::index(words, t, c, out));
    }
    match tables::check(words) {
        Ok(()) => Refusal::Absent.number(),
        Err(refusal) => refusal.number(),
    }
}

// The relation of a number, as the C interface numbers it: 0 less, 1 equal, 2 greater, 3 and above absent.
fn relation_numbered(n: u32) -> Relation
    ensures { result ≡ relation_numbered n }
{
    match n {
        0 => Relation::Less,
        1 => Relation::Equal,
        2 => Relation::Greater,
        _ => Relation::Absent,
    }
}

// The chart of the operators (chart::meets): its answer in the first lent byte. No byte lent is number 2, an operator
// over 5 or a relation over 3 is number 5, and both change nothing.
#[unsafe(no_mangle)]
#[tactic(auto, unfolding(crate::specs::Calls::chart_number, crate::specs::Calls::chart_causes, crate::specs::Calls::chart_after, model::specs::Refusal::first_of, model::specs::Lists::overwrite))]
pub extern "C" fn abe_chart(operation: u32, relation: u32, met: &mut [u8]) -> u8
    ensures number { result ≡ chart_number operation relation (length met.old) }
    ensures met { met.new ≡ chart_after operation relation met.old }
{
    if met.is_empty() {
        return 2;
    }
    if operation > 5 || relation > 3 {
        return 5;
    }
    met[0] = u8::from(chart::meets(operation as u8, relation_numbered(relation)));
    0
}
