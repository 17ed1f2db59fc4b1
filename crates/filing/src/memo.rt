// Values met: the group of a value, and what a mark tells.
ghost use Rattle.std.specs.Prelude.{◌≡◌, ◌-◌, ◌<◌};
ghost use Rattle.model.specs.Tables.{nat_of};
ghost use Rattle.filing.specs.Memo.{distance, key_group};

use value::Value;

// How far a number lies from 0, or from -1 where it is negative.
fn distance_of(key: i64) -> u64
    ensures { result ≡ distance key }
{
    if key < 0 {
        return key.unsigned_abs() - 1;
    }
    key.unsigned_abs()
}

// The group of a value.
#[tactic(auto, unfolding(crate::specs::Memo::key_group))]
pub(crate) fn key_group(key: i64) -> usize
    ensures { (result ≡ key_group key) × (result < 256) }
{
    (distance_of(key) % 256) as usize
}

// The trials that a mark tells: one less than its numerator, 0 of 0 and of a negative one.
pub(crate) fn trials_in(mark: Value) -> u64
    ensures { result ≡ nat_of mark.num - 1 }
{
    u64::try_from(mark.num).unwrap_or(0).saturating_sub(1)
}
