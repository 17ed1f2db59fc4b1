// The places of a block's marks and slots in the files, and the slots of a group filled.
ghost use Rattle.std.specs.Prelude.{◌≡◌, ◌-◌, ◌<◌, ◌≤◌, pos};
ghost use Rattle.std.specs.Int.Signed.{le_z};
ghost use Rattle.groups.specs.Groups.{mark_place, slot_place};
ghost use Rattle.aggregates.specs.Columns.{aggregate_in};
ghost use Rattle.words.specs.Words.{words_with};
ghost use Rattle.filing.specs.Files.{told, slots_filed};

use groups::{Ask, Asked, NO_ASK};
use value::Value;

// How many regions lie before that of a block; block 0 has that of block 1.
pub(crate) fn regions_before(block: u8) -> usize
    ensures { (result ≡ block - 1) × (result < 256) }
{
    usize::from(block.saturating_sub(1))
}

// The place of the mark of a block's group.
pub(crate) fn mark_place(block: u8, group: usize) -> usize
    requires { group < 256 }
    ensures { result ≡ mark_place block group }
{
    buffers::FILE_PLACES * regions_before(block) + group
}

// The place of the first slot of a block's group: the slots of all groups follow the 256 marks.
pub(crate) fn slot_place(block: u8, group: usize) -> usize
    requires { group < 256 }
    ensures { (result ≡ slot_place block group 0) × (result < 1000000) }
{
    buffers::FILE_PLACES * regions_before(block) + 256 + 3 * group
}

// Whether a mark tells that its group is filled.
pub(crate) fn marked(v: Value) -> bool
    ensures { result ≡ le_z (pos 1) v.num }
{
    v.num >= 1
}

// What is asked for, of a set of count rows of n columns in the words, put at a place of the files; 0/0, which is absent,
// where there is none. In a run every aggregate asked for has a value (aggregates: proofs/FairValues.antt,
// aggregate-told).
pub(crate) fn put_slot(
    files: &mut [i64],
    place: usize,
    ask: Ask,
    sets: &[i64],
    n: usize,
    count: usize,
)
    ensures { files.new ≡ words_with files.old place
        (told (aggregate_in ask.function ask.column n count sets.now)) }
{
    let v = aggregates::aggregate_of(
        sets,
        n,
        count,
        ask.function,
        usize::from(ask.column),
    ).unwrap_or(value::absent());
    words::write(files, place, v);
}

// What the slots of a block ask for, of a set of count rows of n columns in the words, put into the slots of a group; a
// block past the fifth asks for nothing.
pub(crate) fn file_slots(
    files: &mut [i64],
    a: &Asked,
    block: u8,
    group: usize,
    sets: &[i64],
    n: usize,
    count: usize,
)
    requires { group < 256 }
    ensures { files.new ≡ slots_filed a.now block group n count sets.now files.old }
{
    let at = slot_place(block, group);
    for i in 0..3 {
        let ask = a
            .slots
            .get(3 * usize::from(block) + i)
            .copied()
            .unwrap_or(NO_ASK);
        if ask.function != 255 {
            put_slot(files, at + i, ask, sets, n, count);
        }
    }
}
