// The aggregate files (01, "work buffer": 8,192 words for aggregate files): for each of blocks 1 to 4 a region of 256
// groups, a group being a mark and the three aggregates that may name the block; the marks of all groups lie first, and
// the aggregates follow, three for each group. Which aggregates these are is told by the question, once. Every function
// takes every number: a group past 255 has no values, and there an aggregate is that of an empty set.
#![tactic(auto)]

ghost use Rattle.std.specs.Prelude.{◌<◌, ◌≡◌};
ghost use Rattle.groups.specs.Asking.{asks_at, slot_of};
ghost use Rattle.groups.specs.Groups.{slot_place, aggregate_at};

use value::Value;

// An aggregate of a block: a function of a column, both 255 where there is none.
#[derive(Clone, Copy)]
pub struct Ask {
    pub function: u8,
    pub column: u8,
}

// What asks for nothing.
pub const NO_ASK: Ask = Ask {
    function: 255,
    column: 255,
};

// The aggregates that name each of the five blocks: three slots for a block, and how many of them are kept.
#[derive(Clone, Copy)]
pub struct Asked {
    pub slots: [Ask; 15],
    pub counts: [u8; 5],
}

// The group of each of the five blocks that tells its aggregates at a match; 256 for those of an empty set.
#[derive(Clone, Copy)]
pub struct Groups {
    pub at: [usize; 5],
}

// Whether slot j asks for the function of the column.
fn asks_at(a: &Asked, j: usize, function: u8, column: u8) -> bool
    ensures { result ≡ asks_at a.now j function column }
{
    let slot = a.slots.get(j).copied().unwrap_or(NO_ASK);
    (slot.function == function) & (slot.column == column)
}

// Which of a block's three slots asks for the function of the column; 3 where none does.
#[tactic(auto, unfolding(crate::specs::Asking::slot_of))]
pub fn slot_of(a: &Asked, block: u8, function: u8, column: u8) -> usize
    ensures { result ≡ slot_of a.now block function column }
{
    let j = 3 * usize::from(block);
    if asks_at(a, j, function, column) {
        return 0;
    }
    if asks_at(a, j + 1, function, column) {
        return 1;
    }
    if asks_at(a, j + 2, function, column) {
        return 2;
    }
    3
}

// The place of a slot of a block's group among the values of the files: region block - 1, block 0 having that of
// block 1, and there after the marks of the 256 groups.
fn slot_place(block: u8, group: usize, slot: usize) -> usize
    requires { (group < 256) × (slot < 3) }
    ensures { result ≡ slot_place block group slot }
{
    buffers::FILE_PLACES * usize::from(block.saturating_sub(1)) + 256 + 3 * group + slot
}

// The function of a column of a block's set, as the block's group tells it.
#[tactic(auto, unfolding(crate::specs::Groups::aggregate_at))]
pub fn aggregate_at(
    a: &Asked,
    files: &[i64],
    g: &Groups,
    function: u8,
    block: u8,
    column: u8,
) -> Value
    ensures { result ≡ aggregate_at a.now files.now g.now function block column }
{
    let group = g.at.get(usize::from(block)).copied().unwrap_or(256);
    let slot = slot_of(a, block, function, column);
    if (group < 256) & (slot < 3) {
        return words::read(files, slot_place(block, group, slot));
    }
    value::empty_of(function)
}
