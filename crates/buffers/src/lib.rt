// The named lengths of the lent buffers (01, "Causes of refusal", numbers 1 and 2), and the part of each work buffer that a
// level or a block has. The definitions have the same numbers: lengths in model/specs/Refusal, parts in specs/Parts. One
// function fills a buffer of any words.
#![tactic(auto)]

ghost use Rattle.std.specs.Prelude.{◌≡◌, ◌++◌, leb, cond, length, drop, replicate};

// 64-bit words of the result: 256 rows of four values.
pub const RESULT: usize = 2048;

// 64-bit words for sets, and those of one level.
pub const SETS: usize = 8192;

pub const SET_PART: usize = 2048;

// 64-bit words for aggregate files, those of one block, and the values in these.
pub const FILES: usize = 8192;

pub const FILE_PART: usize = 2048;

pub const FILE_PLACES: usize = 1024;

// 16-bit words for indexes, and those of one block.
pub const INDEXES: usize = 1280;

pub const INDEX_PART: usize = 256;

// The first n words of a buffer given one value, if it has so many.
pub fn fill_front<T: Copy>(out: &mut [T], n: usize, value: T) -> bool
    ensures enough { result ≡ leb n (length out.old) }
    ensures words { out.new ≡ cond result (replicate n value ++ drop n out.old) out.old }
{
    if out.len() < n {
        return false;
    }
    // The library's `fill` asks that T's clone cannot fail, and no public function asks anything.
    for x in out[..n].iter_mut() {
        *x = value;
    }
    true
}
