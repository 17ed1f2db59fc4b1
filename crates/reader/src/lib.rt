// A question from its bytes, with the lowest of the numbers 5 to 10 that applies (01, "The question", "Causes of
// refusal").
#![tactic(auto)]

ghost use Rattle.std.specs.Prelude.{ℕ, ◌+◌, ◌*◌, ◌<◌, ◌≤◌, min, ◌&&◌, eqb, leb, ltb, length, cond, ◌≡◌, List};
ghost use Rattle.syntax.specs.Described.{described, blocks_in};
ghost use Rattle.model.specs.Question.{block_at};
ghost use Rattle.model.specs.Numbers.{number_in};
ghost use Rattle.model.specs.Records.{well_formed};
ghost use Rattle.model.specs.Refusal.{first_of, question_causes};
ghost use Rattle.syntax.specs.Places.{reading};
ghost use Rattle.scope.specs.Masks.{mask_of};
ghost use Rattle.reader.specs.Causes.{twice_below, ancestor, place_cause};
ghost use Rattle.reader.specs.Walk.{element_cause, elements_cause, row_cause_at, rows_cause, conditions_cause};
ghost use Rattle.reader.specs.Walk.{block_cause, context_at, cause_at, blocks_cause};
ghost use Rattle.reader.specs.Leaves.{block_of, child_there, constant_cause, variable_cause, fixed_cause};
ghost use Rattle.reader.specs.Leaves.{aggregate_cause};

use model::Refusal;
use scope::{has, ratio};
use syntax::{
    Block, Item, Question, byte_at, each_condition, each_element, each_relation, item_at,
};

// What the elements of a block are held to: the question's descriptions, the block's number, the variables that
// belong to it, to its proper ancestors, and to two blocks.
#[derive(Clone, Copy)]
pub struct Context {
    pub question: Question,
    pub block: u8,
    pub own: u16,
    pub above: u16,
    pub twice: u16,
}

// Causes are numbers here, 11 for none: the least of them is what `read` promises.

// 10: a constant, given by its 64 bits, beyond 10^15 in size.
fn constant_cause(a: u64) -> u8
    ensures { result ≡ constant_cause a }
{
    if (a > 1000000000000000) & (a < 18445744073709551616) {
        10
    } else {
        11
    }
}

// 7 and 8: a variable of the block itself.
fn variable_cause(own: u16, twice: u16, v: u64) -> u8
    ensures { result ≡ variable_cause own twice v }
{
    let alone = if has(own, v) & !has(twice, v) { 11 } else { 8 };
    if v < 16 { alone } else { 7 }
}

// 7 and 8: a fixed variable.
fn fixed_cause(above: u16, v: u64) -> u8
    ensures { result ≡ fixed_cause above v }
{
    let bound = if has(above, v) { 11 } else { 8 };
    if v < 16 { bound } else { 7 }
}

// 7 and 9: an aggregate of function f, where `there` tells that its column is there and `ratio` that it is a ratio.
fn aggregate_cause(there: bool, f: u8, ratio: bool) -> u8
    ensures { result ≡ aggregate_cause there f ratio }
{
    if !there {
        return 7;
    }
    if ((f == 1) | (f == 4)) & ratio { 9 } else { 11 }
}

// The description of block k, an empty one where it is not kept.
fn kept(q: Question, k: usize) -> Block
    ensures { result ≡ block_of q k }
{
    if k < 5 {
        return q.blocks[k];
    }
    Block::default()
}

// Whether block k is there, a child of block j, with an output column c.
fn child_there(q: Question, j: u8, k: u8, c: u8) -> bool
    ensures { result ≡ child_there q j k c }
{
    let at = usize::from(k);
    let b = kept(q, at);
    (at < q.count) & (at < 5) & ((0 < k) & (b.parent == j) & (usize::from(c) < b.outputs))
}

// The lowest cause of one element, by its kind.
#[tactic(auto, unfolding(crate::specs::Walk::element_cause))]
fn element_cause(s: &[u8], x: Context, e: Item) -> u8
    ensures { result ≡ element_cause s.now x e }
{
    match e.kind {
        0 => 11,
        1 => constant_cause(e.argument),
        2 => variable_cause(x.own, x.twice, e.argument),
        3 => fixed_cause(x.above, e.argument),
        _ => {
            let q = x.question;
            let there = child_there(q, x.block, e.block, e.column);
            aggregate_cause(there, e.function, ratio(s, q, 4, e.block, e.column))
        }
    }
}

// The least of the causes of n elements from a place on.
#[tactic(auto, unfolding(crate::specs::Causes::lowest))]
fn elements_cause(s: &[u8], x: Context, at: usize, n: usize) -> u8
    ensures { result ≡ elements_cause s.now x n at 11 }
{
    let mut least: u8 = 11;
    for i in each_element(s, at, n) {
        least = least.min(element_cause(s, x, item_at(s, i)));
    }
    least
}

// 7: the table of the relation row at a place is absent, or has another number of columns.
#[tactic(auto, unfolding(crate::specs::Walk::row_cause_at))]
fn row_cause(words: &[i32], s: &[u8], at: usize) -> u8
    requires { at < length s.now }
    ensures { result ≡ row_cause_at words.now s.now at }
{
    let t = byte_at(s, at + 2);
    let n = byte_at(s, at + 3);
    let there = u32::from(t) < tables::tables(words);
    if there & (u32::from(n) == tables::columns(words, t)) {
        11
    } else {
        7
    }
}

// The least of the causes of n relation rows from a place on.
#[tactic(auto, unfolding(crate::specs::Causes::lowest))]
fn rows_cause(words: &[i32], s: &[u8], x: Context, at: usize, n: usize) -> u8
    ensures { result ≡ rows_cause words.now s.now x n at 11 }
{
    let mut least: u8 = 11;
    for i in each_relation(s, at, n) {
        let inside = usize::from(byte_at(s, i + 3));
        let entries = elements_cause(s, x, i + 4, inside);
        least = least.min(row_cause(words, s, i).min(entries));
    }
    least
}

// The least of the causes of n conditions from a place on.
#[tactic(auto, unfolding(crate::specs::Causes::lowest))]
fn conditions_cause(s: &[u8], x: Context, at: usize, n: usize) -> u8
    ensures { result ≡ conditions_cause s.now x n at 11 }
{
    let mut least: u8 = 11;
    for i in each_condition(s, at, n) {
        least = least.min(elements_cause(s, x, i + 3, 2));
    }
    least
}

// The least of the causes of a block's elements.
#[tactic(auto, using(crate::proofs::WalkLaws::block_joined))]
fn block_cause(words: &[i32], s: &[u8], x: Context, b: Block) -> u8
    ensures { result ≡ block_cause words.now s.now x b 11 }
{
    let rows = rows_cause(words, s, x, b.rows_at, b.rows);
    let conditions = conditions_cause(s, x, b.conditions_at, b.conditions);
    let outputs = elements_cause(s, x, b.outputs_at, b.outputs);
    rows.min(conditions).min(outputs)
}

// The variables that two of the first n blocks own.
fn twice_of(s: &[u8], q: Question, n: u8) -> u16
    ensures { result ≡ mask_of (twice_below (blocks_in s.now q) n) }
{
    let mut seen: u16 = 0;
    let mut twice: u16 = 0;
    for k in 0..n {
        let own = scope::own(s, scope::block_of(q, k));
        twice = twice | (seen & own);
        seen = seen | own;
    }
    twice
}

// The variables that the proper ancestors of block j own.
fn above_of(s: &[u8], q: Question, j: u8) -> u16
    ensures { result ≡ mask_of (ancestor 5 (blocks_in s.now q) (block_at (blocks_in s.now q) j).parent) }
{
    let b = scope::block_of(q, j);
    let mut up = b.parent;
    let mut mask: u16 = 0;
    for _step in 0..6u8 {
        let a = scope::block_of(q, up);
        mask = mask | scope::own(s, a);
        up = a.parent;
    }
    mask
}

// 7: the parent of block j is not an earlier block (255 for block 0), or its level is over 4.
fn place_cause(q: Question, j: u8) -> u8
    ensures { (bs : List ℕ) → result ≡ place_cause (blocks_in bs q) j }
{
    let b = scope::block_of(q, j);
    if j == 0 {
        return if b.parent == 255 { 11 } else { 7 };
    }
    if (b.parent < j) & (scope::level(q, j) <= 4) {
        11
    } else {
        7
    }
}

// What the elements of block j are held to.
fn context_of(s: &[u8], q: Question, twice: u16, j: u8) -> Context
    ensures { result ≡ context_at s.now q twice j }
{
    let own = scope::own(s, kept(q, usize::from(j)));
    let above = above_of(s, q, j);
    Context {
        question: q,
        block: j,
        own,
        above,
        twice,
    }
}

// The least of the causes of block j.
fn cause_at(words: &[i32], s: &[u8], q: Question, twice: u16, j: u8) -> u8
    ensures { result ≡ cause_at words.now s.now q twice j 11 }
{
    let x = context_of(s, q, twice, j);
    let b = kept(q, usize::from(j));
    place_cause(q, j).min(block_cause(words, s, x, b))
}

// The least cause from 7 to 10 of the first n blocks, 11 where none applies.
fn blocks_cause(words: &[i32], s: &[u8], q: Question, n: u8) -> u8
    ensures { result ≡ blocks_cause words.now s.now q (mask_of (twice_below (blocks_in s.now q) n)) n 0 11 }
{
    let twice = twice_of(s, q, n);
    let mut least: u8 = 11;
    for j in 0..n {
        least = least.min(cause_at(words, s, q, twice, j));
    }
    least
}

// The refusal by a number from 7 to 10, none by another.
fn refused_by(least: u8) -> Result<(), Refusal>
    ensures { number_in result ≡ cond (leb 7 least && leb least 10) least 0 }
{
    match least {
        7 => Err(Refusal::Absent),
        8 => Err(Refusal::Variable),
        9 => Err(Refusal::Ratio),
        10 => Err(Refusal::Constant),
        _ => Ok(()),
    }
}

// The refusal of a question whose records are read: by 5, by 6, or by the least cause from 7 to 10.
fn judge(words: &[i32], s: &[u8], formed: bool, q: Question) -> Result<(), Refusal>
    requires { (q ≡ reading s.now) × (formed ≡ well_formed s.now) }
    ensures { number_in result ≡ first_of (question_causes words.now s.now) }
{
    if !formed {
        return Err(Refusal::Records);
    }
    if !limits::within(s, q) {
        return Err(Refusal::Limits);
    }
    let n = q.count as u8;
    refused_by(blocks_cause(words, s, q, n))
}

// What a question's bytes hold over these tables: the refusal by the lowest number from 5 to 10 that applies, and the
// descriptions of its blocks, whatever it is.
#[derive(Clone, Copy)]
pub struct Reading {
    pub told: Result<(), Refusal>,
    pub question: Question,
}

// Reads a question over the data, whatever either holds: over data that number 3 or 4 refuses, 7 is judged by the
// counts that their directory words give.
pub fn read(words: &[i32], question: &[u8]) -> Reading
    ensures number { number_in result.told ≡ first_of (question_causes words.now question.now) }
    ensures described { result.question ≡ reading question.now }
{
    let p = syntax::parse(question);
    let q = p.question;
    let told = judge(words, question, p.formed, q);
    Reading { told, question: q }
}
