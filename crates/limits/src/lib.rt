// Number 6 of the causes of refusal (01, "Causes of refusal"): 1 to 5 blocks, each within its counts, and at most three
// aggregate elements that name one block number, whether such a block is there or not. Total: bytes past the end read
// 0, so that an element past the end is empty, and a walk stops where the bytes end. One walk over the elements of
// conditions and output lists: the cost goes by their number, and by five blocks at most.
#![tactic(auto)]

ghost use Rattle.std.specs.Prelude.{◌≡◌, ◌+◌, ◌≤◌, ◌<◌, length};
ghost use Rattle.model.specs.Lists.{concat_map};
ghost use Rattle.model.specs.Question.{other_elements};
ghost use Rattle.syntax.specs.Described.{element_at, elements_at, conditions_at, described};
ghost use Rattle.limits.specs.Limits.{others_in, within_in};
ghost use Rattle.limits.specs.Tally.{no_tally, bump, tally_of, tally_all, sides};

use syntax::{Block, Question, byte_at, each_condition, each_element};

// How many aggregates name each block number, counted to 4, and whether four name one.
#[derive(Clone, Copy)]
struct Tally {
    counts: [u8; 256],
    over: bool,
}

impl Tally {
    // One more aggregate of block k.
    #[tactic(auto, unfolding(crate::specs::Tally::bump))]
    fn bump(&mut self, k: u8)
        ensures { self.new ≡ bump self.old k }
    {
        let i = usize::from(k);
        let n = self.counts[i];
        if n < 4 {
            self.counts[i] = n + 1;
            self.over = self.over | (n == 3);
        }
    }

    // The element at a place counted: an aggregate where its kind is past 3, of the block number in its third byte.
    #[tactic(auto, using(crate::proofs::Steps::named, crate::proofs::Steps::other))]
    fn count_at(&mut self, s: &[u8], at: usize)
        requires { at ≤ length s.now + 12 }
        ensures { self.new ≡ tally_of self.old (element_at s.now at) }
    {
        if byte_at(s, at) > 3 {
            self.bump(byte_at(s, at + 2));
        }
    }

    // n elements from a place on counted. Those past the end are empty.
    #[tactic(auto, unfolding(crate::specs::Tally::tally_all))]
    fn count_elements(&mut self, s: &[u8], at: usize, n: usize)
        ensures { self.new ≡ tally_all self.old (elements_at s.now n at) }
    {
        for i in each_element(s, at, n) {
            self.count_at(s, i);
        }
    }

    // The two elements of n conditions from a place on counted.
    #[tactic(auto, unfolding(crate::specs::Tally::tally_all, model::specs::Lists::concat_map, syntax::specs::Described::condition_at))]
    fn count_conditions(&mut self, s: &[u8], at: usize, n: usize)
        ensures { self.new ≡ tally_all self.old (concat_map sides (conditions_at s.now n at)) }
    {
        for i in each_condition(s, at, n) {
            self.count_at(s, i + 3);
            self.count_at(s, i + 12);
        }
    }

    // The elements of a block's conditions and of its output list counted. Relation rows hold no aggregate.
    #[tactic(auto, using(crate::proofs::Steps::block_is))]
    fn count_block(&mut self, s: &[u8], b: Block)
        ensures { self.new ≡ tally_all self.old (other_elements (described s.now b)) }
    {
        self.count_conditions(s, b.conditions_at, b.conditions);
        self.count_elements(s, b.outputs_at, b.outputs);
    }
}

// The blocks of a question counted.
#[tactic(auto, using(crate::proofs::Steps::blocks_turn, crate::proofs::Steps::blocks_done), unfolding(syntax::specs::Described::blocks_in))]
fn count_blocks(s: &[u8], q: Question) -> Tally
    requires { q.count ≤ 5 }
    ensures { result ≡ tally_all no_tally (others_in s.now q) }
{
    let mut y = Tally {
        counts: [0; 256],
        over: false,
    };
    for b in &q.blocks[..q.count] {
        y.count_block(s, *b);
    }
    y
}

// Whether the limits of number 6 hold of the question that was read from the bytes.
#[tactic(auto, using(crate::proofs::Counted::over_is), unfolding(crate::specs::Limits::within_in))]
pub fn within(s: &[u8], q: Question) -> bool
    ensures { result ≡ within_in s.now q }
{
    if (q.count > 0) & (q.count < 6) & q.within {
        return !count_blocks(s, q).over;
    }
    false
}
