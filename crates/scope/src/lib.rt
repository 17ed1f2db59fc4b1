// The variables of a block as sets of sixteen bits, the levels of blocks, and which output columns are ratios (01, "A
// variable belongs to the one block where it stands as kind 2"; numbers 7 to 9). Every public function is total: an
// element past the end of the bytes is empty, and a block past the last has no records. A walk stops at the end of the
// bytes, since what is left past it holds nothing.
#![tactic(auto)]

ghost use Rattle.std.specs.Prelude.{◌≡◌, ◌&&◌, cond, List, ℕ, ◌≤◌, ◌<◌, min, eqb, ltb, length, get_or};
ghost use Rattle.model.specs.Checks.{ratio_at};
ghost use Rattle.model.specs.Question.{empty, block_at, names_in};
ghost use Rattle.model.specs.Scope.{owns, refers, level_of};
ghost use Rattle.syntax.specs.Described.{described, blocks_in};
ghost use Rattle.scope.specs.Masks.{has_bit, mask_of};
ghost use Rattle.scope.specs.Gathering.{takes, number_of, holds_at, elements_hold, rows_hold, conditions_hold};
ghost use Rattle.scope.specs.Shown.{shown};
ghost use Rattle.scope.specs.Columns.{element_of, passes_on, is_average, absent_block};

use syntax::{
    Block, Item, Question, byte_at, each_condition, each_element, each_relation, item_at,
};

// The set of one variable, empty where it is none of 0 to 15.
pub fn bit(v: u64) -> u16
    ensures { result ≡ mask_of (λ w. eqb w v) }
{
    if v < 16 {
        return 1 << v;
    }
    0
}

// Whether the variable is in the set.
pub fn has(mask: u16, v: u64) -> bool
    ensures { result ≡ ltb v 16 && has_bit mask v }
{
    if v < 16 {
        return (mask >> v) % 2 == 1;
    }
    false
}

// What is looked for among the elements of a block.
#[derive(Clone, Copy)]
enum Kind {
    Variable,
    Fixed,
    Aggregate,
}

impl Kind {
    // Whether an element of the kind's number is one.
    fn takes(self, kind: u8) -> bool
        ensures { result ≡ takes self kind }
    {
        match self {
            Kind::Variable => kind == 2,
            Kind::Fixed => kind == 3,
            Kind::Aggregate => kind > 3,
        }
    }

    // The number that such an element holds: a variable, or the block of an aggregate.
    fn number_of(self, e: Item) -> u64
        ensures { result ≡ number_of self e }
    {
        match self {
            Kind::Variable | Kind::Fixed => e.argument,
            Kind::Aggregate => u64::from(e.block),
        }
    }

    // The number that the element at a place holds, as a set.
    #[tactic(auto, using(crate::proofs::GatheringLaws::held_none), unfolding(crate::specs::Gathering::holds_at))]
    fn held_at(self, s: &[u8], at: usize) -> u16
        ensures { result ≡ mask_of (holds_at self s.now at) }
    {
        let e = item_at(s, at);
        if self.takes(e.kind) {
            return bit(self.number_of(e));
        }
        0
    }

    // The numbers that n elements from a place on hold.
    fn held_in_elements(self, s: &[u8], at: usize, n: usize) -> u16
        ensures { result ≡ mask_of (elements_hold self s.now n at) }
    {
        let mut mask = 0;
        for i in each_element(s, at, n) {
            mask = mask | self.held_at(s, i);
        }
        mask
    }

    // The numbers that n relation rows from a place on hold.
    fn held_in_rows(self, s: &[u8], at: usize, n: usize) -> u16
        ensures { result ≡ mask_of (rows_hold self s.now n at) }
    {
        let mut mask = 0;
        for i in each_relation(s, at, n) {
            let inside = usize::from(byte_at(s, i + 3));
            mask = mask | self.held_in_elements(s, i + 4, inside);
        }
        mask
    }

    // The numbers that n conditions from a place on hold.
    fn held_in_conditions(self, s: &[u8], at: usize, n: usize) -> u16
        ensures { result ≡ mask_of (conditions_hold self s.now n at) }
    {
        let mut mask = 0;
        for i in each_condition(s, at, n) {
            mask = mask | self.held_in_elements(s, i + 3, 2);
        }
        mask
    }
}

// The variables that belong to a block: those that stand in its relation rows.
#[tactic(auto, using(crate::proofs::HeldLaws::own_is))]
pub fn own(s: &[u8], b: Block) -> u16
    ensures { result ≡ mask_of (λ v. owns v (described s.now b)) }
{
    Kind::Variable.held_in_rows(s, b.rows_at, b.rows)
}

// The variables that stand in a block as fixed ones: in its relation rows, its conditions and its output list.
pub fn used(s: &[u8], b: Block) -> u16
    ensures { result ≡ mask_of (λ v. refers v (described s.now b)) }
{
    let rows = Kind::Fixed.held_in_rows(s, b.rows_at, b.rows);
    let conditions = Kind::Fixed.held_in_conditions(s, b.conditions_at, b.conditions);
    let outputs = Kind::Fixed.held_in_elements(s, b.outputs_at, b.outputs);
    rows | (conditions | outputs)
}

// The variables that stand in a block as its own, past its relation rows: in its conditions and its output list.
pub fn shown(s: &[u8], b: Block) -> u16
    ensures { result ≡ mask_of (λ v. shown v (described s.now b)) }
{
    let conditions = Kind::Variable.held_in_conditions(s, b.conditions_at, b.conditions);
    let outputs = Kind::Variable.held_in_elements(s, b.outputs_at, b.outputs);
    conditions | outputs
}

// The blocks that an aggregate of a block names: in its output list and its conditions. Numbers past 15 are left out.
pub fn named(s: &[u8], b: Block) -> u16
    ensures { result ≡ mask_of (λ k. names_in k (described s.now b)) }
{
    let outputs = Kind::Aggregate.held_in_elements(s, b.outputs_at, b.outputs);
    let conditions = Kind::Aggregate.held_in_conditions(s, b.conditions_at, b.conditions);
    outputs | conditions
}

// A block that stands nowhere: its parent is none.
fn absent_block() -> Block
    ensures { result ≡ absent_block }
{
    Block {
        parent: 255,
        ..Block::default()
    }
}

// Block k of the question, one that stands nowhere past the last or past the fifth. Free are its `end`, and the places of
// records of which it has none.
pub fn block_of(q: Question, block: u8) -> Block
    ensures { (bs : List ℕ) → described bs result ≡ block_at (blocks_in bs q) block }
{
    let k = usize::from(block);
    if (k < q.count) & (k < 5) {
        return q.blocks[k];
    }
    absent_block()
}

// The level of a block, block 0 being at level 1: five steps up at the most.
pub fn level(q: Question, block: u8) -> u8
    ensures { (bs : List ℕ) → result ≡ level_of 5 (blocks_in bs q) block }
{
    let mut at = block;
    for n in 1..6 {
        if at == 0 {
            return n;
        }
        at = block_of(q, at).parent;
    }
    6
}

// The element in an output column of a block, an empty one where there is none.
fn output_of(s: &[u8], q: Question, block: u8, column: u8) -> Item
    ensures { element_of result ≡ get_or (block_at (blocks_in s.now q) block).outputs column empty }
{
    let b = block_of(q, block);
    let at = b.outputs_at;
    let c = usize::from(column);
    if (c < b.outputs) & (at < s.len()) {
        return item_at(s, at + 9 * c);
    }
    item_at(s, s.len())
}

// Whether the element is a min or a max: a ratio where its column is one.
fn passes_on(e: Item) -> bool
    ensures { result ≡ passes_on e }
{
    (e.kind > 3) & ((e.function == 2) | (e.function == 3))
}

// Whether the element is an average: a ratio whatever its column is.
fn is_average(e: Item) -> bool
    ensures { result ≡ is_average e }
{
    (e.kind > 3) & (e.function > 3)
}

// Whether an output column of a block is a ratio, where so many levels are left.
pub fn ratio(s: &[u8], q: Question, levels: u8, block: u8, column: u8) -> bool
    ensures { result ≡ ratio_at levels (blocks_in s.now q) block column }
{
    if levels == 0 {
        return false;
    }
    let e = output_of(s, q, block, column);
    if passes_on(e) {
        return ratio(s, q, levels - 1, e.block, e.column);
    }
    is_average(e)
}
