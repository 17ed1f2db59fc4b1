// The question's bytes as records in their order (01, "The question"; number 5), and the places of what they hold.
// Blocks are read to the last byte, whatever their number; the first five are kept. Every public function is total:
// bytes past the end read 0.
#![tactic(auto)]

mod walks;

ghost use Rattle.std.specs.Prelude.{MatchOption, ◌≡◌, true, ◌&&◌, ℕ, ◌+◌, ◌*◌, ◌-◌, ◌%◌, ◌≤◌, ◌<◌, length, get_or};
ghost use Rattle.model.specs.Records as model;
ghost use Rattle.syntax.specs.Places.{item_at, head_at, byte_at, word_at, takes, five_zeros, argument_ok, element_ok};
ghost use Rattle.syntax.specs.Places.{elements_ok, is_mark, head_of, entries_of, head_ok, record_end, record_ok, run};
ghost use Rattle.syntax.specs.Places.{runs, block, block_within, put, walk, no_block, no_question, reading};
ghost use Rattle.syntax.specs.Places.{condition_end, well_formed};

pub use walks::{Places, each_condition, each_element, each_relation};

// An element of the question: its kind, its argument as a number, and the argument's first three bytes.
#[derive(Clone, Copy)]
pub struct Item {
    pub kind: u8,
    pub argument: u64,
    pub function: u8,
    pub block: u8,
    pub column: u8,
}

// An element's kind and its argument as a number, no more: what is asked of an element that is no aggregate.
#[derive(Clone, Copy)]
pub struct Head {
    pub argument: u64,
    pub kind: u8,
}

// Where a run of records ends, and how many it has. Public, since the definitions name it.
#[derive(Clone, Copy)]
pub struct Run {
    pub at: usize,
    pub count: usize,
}

// Where the records of a block lie, and how many there are.
#[derive(Clone, Copy, Default)]
pub struct Block {
    pub parent: u8,
    pub rows_at: usize,
    pub rows: usize,
    pub conditions_at: usize,
    pub conditions: usize,
    pub outputs_at: usize,
    pub outputs: usize,
    pub end: usize,
}

// The first five blocks of a question, and of all of them how many there are, whether each is within its limits, and where
// the last ends. The count stands beside the array, since nothing is allocated and later blocks are counted too.
#[derive(Clone, Copy)]
pub struct Question {
    pub blocks: [Block; 5],
    pub count: usize,
    pub within: bool,
    pub end: usize,
}

// The number that the first eight bytes hold, lowest first; bytes past the end read 0.
fn word(s: &[u8]) -> u64
    ensures { result ≡ word_at s.now 0 }
{
    if let Some(bytes) = s.first_chunk() {
        return u64::from_le_bytes(*bytes);
    }
    let mut bytes = [0; 8];
    bytes[..s.len()].copy_from_slice(s);
    u64::from_le_bytes(bytes)
}

// The byte at a place, 0 past the end.
pub fn byte_at(s: &[u8], at: usize) -> u8
    ensures { result ≡ byte_at s.now at }
{
    s.get(at).copied().unwrap_or(0)
}

// The kind and the argument of the element at a place, both 0 past the end.
pub fn head_at(s: &[u8], at: usize) -> Head
    ensures { result ≡ head_at s.now at }
{
    let rest = s.get(at..).unwrap_or_default();
    if let Some(&[kind, a, b, c, d, e, f, g, h]) = rest.first_chunk::<9>() {
        return Head {
            argument: u64::from_le_bytes([a, b, c, d, e, f, g, h]),
            kind,
        };
    }
    match rest {
        [kind, argument @ ..] => Head {
            argument: word(argument),
            kind: *kind,
        },
        [] => Head {
            argument: 0,
            kind: 0,
        },
    }
}

// The element at a place, decoded: an empty one past the end.
pub fn item_at(s: &[u8], at: usize) -> Item
    ensures { result ≡ item_at s.now at }
{
    let Head { argument, kind } = head_at(s, at);
    let [function, block, column, ..] = argument.to_le_bytes();
    Item {
        kind,
        argument,
        function,
        block,
        column,
    }
}

// The place after the condition at a place, the place itself where the bytes end: the step of every walk over
// conditions.
#[tactic(auto, unfolding(crate::specs::Places::condition_end, crate::specs::Places::record_end))]
pub fn condition_end(s: &[u8], at: usize) -> usize
    ensures { result ≡ condition_end s.now at }
{
    if at < s.len() {
        return at + 21;
    }
    at
}

// The records of a question, each named by its mark. Public, since the definitions that contracts cite name it.
#[derive(Clone, Copy)]
pub enum Record {
    Rw,
    Cd,
    Ol,
    Bk,
    En,
}

// Whether the five bytes from at on are 0.
fn five_zeros(s: &[u8], at: usize) -> bool
    requires { at + 5 ≤ length s.now }
    ensures { result ≡ five_zeros s.now at }
{
    s[at..at + 5] == [0; 5]
}

// Whether the kind takes the argument: a its number, f and c its bytes 0 and 2, z whether its bytes 3 to 7 are 0.
fn argument_ok(kind: u8, a: u64, f: u8, c: u8, z: bool) -> bool
    ensures { result ≡ argument_ok kind a f c z }
{
    (kind == 0) & (a == 0)
        | (0 < kind) & (kind < 4)
        | (kind == 4) & (f < 5) & (z & ((0 < f) | (c == 0)))
}

impl Record {
    // Whether the record takes the kind.
    fn takes(self, kind: u8) -> bool
        ensures { result ≡ takes self kind }
    {
        match self {
            Record::Rw => kind < 4,
            Record::Cd => (0 < kind) & (kind < 5),
            Record::Ol => (kind == 2) | (kind == 4),
            Record::Bk | Record::En => false,
        }
    }

    // Whether an element of the record stands at a place.
    #[tactic(auto, unfolding(crate::specs::Places::element_ok))]
    fn element_ok(self, s: &[u8], at: usize) -> bool
        requires { at + 9 ≤ length s.now }
        ensures { result ≡ element_ok self s.now at }
    {
        let e = item_at(s, at);
        let zeros = five_zeros(s, at + 4);
        self.takes(e.kind) & argument_ok(e.kind, e.argument, e.function, e.column, zeros)
    }

    // Whether n elements of the record stand from a place on.
    fn elements_ok(self, s: &[u8], at: usize, n: usize) -> bool
        requires { at + 9 * n ≤ length s.now }
        ensures { result ≡ elements_ok self s.now n at }
    {
        (0..n).all(|k| self.element_ok(s, at + 9 * k))
    }

    // Whether two bytes are the record's mark.
    fn is_mark(self, x: u8, y: u8) -> bool
        ensures { result ≡ is_mark self x y }
    {
        let mark = match self {
            Record::Rw => *b"RW",
            Record::Cd => *b"CD",
            Record::Ol => *b"OL",
            Record::Bk => *b"BK",
            Record::En => *b"EN",
        };
        [x, y] == mark
    }

    // The bytes of the record before its elements.
    fn head_of(self) -> usize
        ensures { result ≡ head_of self }
    {
        match self {
            Record::Rw => 4,
            Record::Cd | Record::Ol | Record::Bk => 3,
            Record::En => 2,
        }
    }

    // How many elements follow the head of the record at a place.
    fn entries_of(self, s: &[u8], at: usize) -> usize
        requires { at + head_of self ≤ length s.now }
        ensures { (result ≡ entries_of self s.now at) × (result < 256) }
    {
        match self {
            Record::Rw => usize::from(s[at + 3]),
            Record::Cd => 2,
            Record::Ol => usize::from(s[at + 2]),
            Record::Bk | Record::En => 0,
        }
    }

    // Whether the head of the record stands at a place: its mark, and an operator in that of a condition.
    #[tactic(auto, unfolding(crate::specs::Places::head_ok))]
    fn head_ok(self, s: &[u8], at: usize) -> bool
        requires { at + head_of self ≤ length s.now }
        ensures { result ≡ head_ok self s.now at }
    {
        let good = self.is_mark(s[at], s[at + 1]);
        match self {
            Record::Cd => good & (s[at + 2] < 6),
            _ => good,
        }
    }

    // The place after the record at a place.
    #[tactic(auto, using(crate::proofs::Laws::record_in), unfolding(crate::specs::Places::record_end))]
    fn end_of(self, s: &[u8], at: usize) -> usize
        requires { record_ok self s.now at ≡ true }
        ensures { result ≡ record_end self s.now at }
    {
        at + self.head_of() + 9 * self.entries_of(s, at)
    }

    // Whether the record stands at a place, whole and well formed.
    #[tactic(auto, using(crate::proofs::Laws::end_is), unfolding(crate::specs::Places::record_ok))]
    fn stands(self, s: &[u8], at: usize) -> bool
        ensures { result ≡ record_ok self s.now at }
    {
        let head = self.head_of();
        if s.len().saturating_sub(at) < head {
            return false;
        }
        let first = at + head;
        let n = self.entries_of(s, at);
        if s.len() - first < 9 * n {
            return false;
        }
        self.head_ok(s, at) & self.elements_ok(s, first, n)
    }

    // As many of the record as stand from a place on.
    fn run(self, s: &[u8], at: usize) -> Run
        requires { at ≤ length s.now }
        ensures { (result ≡ runs self s.now at) × (result.at ≤ length s.now) }
    {
        let mut i = at;
        let mut n = 0;
        // Where a record ends is told by its bytes: no range or iterator of the library gives the places.
        while self.stands(s, i) {
            i = self.end_of(s, i);
            n += 1;
        }
        Run { at: i, count: n }
    }
}

// The block at a place, where one stands.
fn block_at(s: &[u8], at: usize) -> Option<Block>
    ensures { MatchOption result ((block s.now at).end ≡ 0) (λ b. (b ≡ block s.now at) × (0 < b.end)) }
{
    if !Record::Bk.stands(s, at) {
        return None;
    }
    let rw = at + 3;
    let r = Record::Rw.run(s, rw);
    let cd = r.at;
    let c = Record::Cd.run(s, cd);
    let o = c.at;
    if !Record::Ol.stands(s, o) {
        return None;
    }
    Some(Block {
        parent: s[at + 2],
        rows_at: rw,
        rows: r.count,
        conditions_at: cd,
        conditions: c.count,
        outputs_at: o + 3,
        outputs: usize::from(s[o + 2]),
        end: Record::Ol.end_of(s, o),
    })
}

fn block_within(b: Block) -> bool
    ensures { result ≡ block_within b }
{
    (b.rows < 4) & (b.conditions < 9) & (0 < b.outputs) & (b.outputs < 5)
}

// The question with one more block, the first five of which are kept.
#[tactic(auto, unfolding(crate::specs::Places::put))]
fn put_block(q: Question, b: Block) -> Question
    requires { q.count < b.end }
    ensures { result ≡ put q b }
{
    let mut blocks = q.blocks;
    let n = q.count;
    if n < 5 {
        blocks[n] = b;
    }
    Question {
        blocks,
        count: n + 1,
        within: q.within & block_within(b),
        end: b.end,
    }
}

fn read_blocks(s: &[u8]) -> Question
    ensures { result ≡ reading s.now }
{
    let mut q = Question {
        blocks: [Block::default(); 5],
        count: 0,
        within: true,
        end: 0,
    };
    while let Some(b) = block_at(s, q.end) {
        q = put_block(q, b);
    }
    q
}

#[tactic(auto, unfolding(crate::specs::Places::well_formed))]
fn well_formed(s: &[u8], q: Question) -> bool
    requires { q ≡ reading s.now }
    ensures { result ≡ well_formed s.now }
{
    let at = q.end;
    if Record::En.stands(s, at) {
        return Record::En.end_of(s, at) == s.len();
    }
    false
}

// What the bytes hold: whether they are a question's records in order (number 5), and the blocks that stand.
#[derive(Clone, Copy)]
pub struct Parsed {
    pub formed: bool,
    pub question: Question,
}

pub fn parse(s: &[u8]) -> Parsed
    ensures formed { result.formed ≡ model.well_formed s.now }
    ensures question { result.question ≡ reading s.now }
{
    let q = read_blocks(s);
    let formed = well_formed(s, q);
    Parsed {
        formed,
        question: q,
    }
}
