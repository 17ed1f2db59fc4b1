// Walks over a question's bytes, as iterators over places. A walk ends where the bytes do, since what is left past the
// end holds nothing.
ghost use Rattle.std.specs.Prelude.{◌≡◌, ◌<◌, length};
ghost use Rattle.std.specs.Iterator.{YieldsFirst, item_count};
ghost use Rattle.syntax.specs.Walks.{element_places, condition_places, relation_places, end_of, to_come};

use crate::{byte_at, condition_end};

// What a walk goes over.
#[derive(Clone, Copy)]
enum Walked {
    Elements,
    Conditions,
    Relations,
}

impl Walked {
    // The place after the record at a place.
    #[tactic(auto, unfolding(crate::specs::Places::condition_end, crate::specs::Places::record_end))]
    fn end_of(self, s: &[u8], at: usize) -> usize
        requires { at < length s.now }
        ensures { result ≡ end_of self s.now at }
    {
        match self {
            Walked::Elements => at + 9,
            Walked::Conditions => condition_end(s, at),
            Walked::Relations => at + 4 + 9 * usize::from(byte_at(s, at + 3)),
        }
    }
}

// The places of so many records, one after the other.
#[derive(Clone, Copy)]
pub struct Places<'a> {
    s: &'a [u8],
    over: Walked,
    at: usize,
    left: usize,
}

impl<'a> Iterator for Places<'a> {
    type Item = usize;

    ghost next_gives = { YieldsFirst to_come };

    ghost remaining = { item_count to_come };

    #[tactic(auto, unfolding(crate::specs::Walks::to_come), using(crate::proofs::WalkLaws::walk_done, crate::proofs::WalkLaws::walk_goes))]
    fn next(&mut self) -> Option<usize> {
        if (self.left == 0) | (self.s.len() <= self.at) {
            return None;
        }
        let at = self.at;
        self.at = self.over.end_of(self.s, at);
        self.left -= 1;
        Some(at)
    }
}

// The places of n elements from a place on.
#[tactic(auto, unfolding(crate::specs::Walks::to_come))]
pub fn each_element<'a>(s: &'a [u8], at: usize, n: usize) -> Places<'a>
    ensures { to_come result ≡ element_places s.now n at }
{
    Places {
        s,
        over: Walked::Elements,
        at,
        left: n,
    }
}

// The places of n conditions from a place on.
#[tactic(auto, unfolding(crate::specs::Walks::to_come))]
pub fn each_condition<'a>(s: &'a [u8], at: usize, n: usize) -> Places<'a>
    ensures { to_come result ≡ condition_places s.now n at }
{
    Places {
        s,
        over: Walked::Conditions,
        at,
        left: n,
    }
}

// The places of n relation rows from a place on.
#[tactic(auto, unfolding(crate::specs::Walks::to_come))]
pub fn each_relation<'a>(s: &'a [u8], at: usize, n: usize) -> Places<'a>
    ensures { to_come result ≡ relation_places s.now n at }
{
    Places {
        s,
        over: Walked::Relations,
        at,
        left: n,
    }
}
