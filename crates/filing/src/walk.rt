// One walk over the elements of a question's conditions and output lists, for the aggregates among them. Bytes past the
// end read 0, so that an element past the end is empty, and a walk stops where the bytes end.
ghost use Rattle.std.specs.Prelude.{◌≡◌, ◌+◌, ◌≤◌, ◌<◌, length};
ghost use Rattle.model.specs.Lists.{concat_map};
ghost use Rattle.model.specs.Question.{other_elements};
ghost use Rattle.syntax.specs.Described.{element_at, elements_at, conditions_at, described};
ghost use Rattle.filing.specs.Asks.{no_asked, ask, ask_of, ask_all, sides};

use groups::{Ask, Asked, NO_ASK};
use syntax::{Block, byte_at, each_condition, each_element};

// Nothing asked for.
pub(crate) fn no_asked() -> Asked
    ensures { result ≡ no_asked }
{
    Asked {
        slots: [NO_ASK; 15],
        counts: [0; 5],
    }
}

// A function of a column of a block in the next of its three slots.
#[tactic(auto, unfolding(crate::specs::Asks::ask))]
pub(crate) fn asked(a: Asked, function: u8, block: u8, column: u8) -> Asked
    ensures { result ≡ ask a function block column }
{
    let k = usize::from(block);
    if k >= 5 {
        return a;
    }
    let n = a.counts[k];
    if n >= 3 {
        return a;
    }
    let mut y = a;
    y.slots[3 * k + usize::from(n)] = Ask { function, column };
    y.counts[k] = n + 1;
    y
}

// The element at a place asked for: an aggregate where its kind is past 3, with function, block and column in its next
// three bytes.
pub(crate) fn ask_at(s: &[u8], at: usize, a: Asked) -> Asked
    requires { at ≤ length s.now + 12 }
    ensures { result ≡ ask_of a (element_at s.now at) }
{
    if byte_at(s, at) > 3 {
        return asked(
            a,
            byte_at(s, at + 1),
            byte_at(s, at + 2),
            byte_at(s, at + 3),
        );
    }
    a
}

// n elements from a place on asked for.
#[tactic(auto, unfolding(crate::specs::Asks::ask_all))]
pub(crate) fn ask_elements(s: &[u8], at: usize, n: usize, a: Asked) -> Asked
    ensures { result ≡ ask_all a (elements_at s.now n at) }
{
    let mut y = a;
    for i in each_element(s, at, n) {
        y = ask_at(s, i, y);
    }
    y
}

// The two elements of n conditions from a place on asked for.
#[tactic(auto, unfolding(crate::specs::Asks::ask_all, model::specs::Lists::concat_map, syntax::specs::Described::condition_at))]
pub(crate) fn ask_conditions(s: &[u8], at: usize, n: usize, a: Asked) -> Asked
    ensures { result ≡ ask_all a (concat_map sides (conditions_at s.now n at)) }
{
    let mut y = a;
    for i in each_condition(s, at, n) {
        y = ask_at(s, i + 12, ask_at(s, i + 3, y));
    }
    y
}

// The elements of a block's conditions and of its output list asked for.
pub(crate) fn ask_block(s: &[u8], b: Block, a: Asked) -> Asked
    ensures { result ≡ ask_all a (other_elements (described s.now b)) }
{
    let y = ask_conditions(s, b.conditions_at, b.conditions, a);
    ask_elements(s, b.outputs_at, b.outputs, y)
}
