// Which aggregates a question asks of its blocks, and the files that tell their values (01, "work buffer": 8,192 words
// for aggregate files). A block's file has 256 groups; a group is filled from a set of the block's rows, and then tells
// the aggregates of that set. The marks of the groups lie before the values of their slots, so that groups are made
// empty by zeroing the marks alone. Every function takes every number: a group past 255 has no values, and what the
// words have no room for is not written.
#![tactic(auto)]

mod memo;
mod slots;
mod walk;

ghost use Rattle.std.specs.Prelude.{◌≡◌};
ghost use Rattle.limits.specs.Limits.{others_in};
ghost use Rattle.filing.specs.Asks.{no_asked, ask_all};
ghost use Rattle.filing.specs.Files.{is_filed, emptied, filed};
ghost use Rattle.filing.specs.Memo.{mark_in, met_mark};

use groups::Asked;
use syntax::Question;
use value::Value;

// What marks tell of a value: its group, whether it is marked, and the trials told. (The trials stand beside the flag and
// not in an `Option`: a value that is marked may have none told, and `Memo` says what is read there.)
#[derive(Clone, Copy)]
pub struct Memory {
    pub group: usize,
    pub known: bool,
    pub trials: u64,
}

// The aggregates that the conditions and output lists of a question ask of each block.
pub fn asks_of(s: &[u8], q: Question) -> Asked
    ensures { result ≡ ask_all no_asked (others_in s.now q) }
{
    let mut y = walk::no_asked();
    for k in 0..q.count.min(5) {
        y = walk::ask_block(s, q.blocks[k], y);
    }
    y
}

// Whether a group of a block is filled.
#[tactic(auto, unfolding(crate::specs::Files::is_filed))]
pub fn is_filed(files: &[i64], block: u8, group: usize) -> bool
    ensures { result ≡ is_filed files.now block group }
{
    group < 256 && slots::marked(words::read(files, slots::mark_place(block, group)))
}

// The first groups of a block made empty, by zeroing their marks, if the words have room for these.
pub fn empty_file(files: &mut [i64], block: u8, groups: usize)
    ensures { files.new ≡ emptied block groups files.old }
{
    let at = buffers::FILE_PART * slots::regions_before(block);
    let n = 2 * groups.min(256);
    if files.len() < at + n {
        return;
    }
    words::zero(&mut files[at..], n);
}

// A group of a block filled: what its slots ask for, of a set of count rows in the words, and the mark.
pub fn file_group(
    files: &mut [i64],
    a: &Asked,
    block: u8,
    group: usize,
    sets: &[i64],
    columns: usize,
    count: usize,
)
    ensures { files.new ≡ filed a.now block group columns count sets.now files.old }
{
    if group >= 256 {
        return;
    }
    slots::file_slots(files, a, block, group, sets, columns, count);
    words::write(
        files,
        slots::mark_place(block, group),
        Value { num: 1, den: 1 },
    );
}

// ---- values met

// What lent words, a mark for each group, tell of a value.
pub fn recall_mark(marks: &[i64], key: i64) -> Memory
    ensures { result ≡ mark_in marks.now key }
{
    let group = memo::key_group(key);
    let met = words::read(marks, group);
    Memory {
        group,
        known: slots::marked(met) & (met.den == key),
        trials: memo::trials_in(met),
    }
}

// The mark of a value that is met; where the trials that follow it are told and below 62 bits, it tells one more than
// these.
#[tactic(auto, unfolding(crate::specs::Memo::met_mark))]
pub fn met_mark(told: bool, trials: u64, key: i64) -> Value
    ensures { result ≡ met_mark told trials key }
{
    if told & (trials < 4611686018427387904) {
        return Value {
            num: (trials + 2).cast_signed(),
            den: key,
        };
    }
    Value { num: 1, den: key }
}
