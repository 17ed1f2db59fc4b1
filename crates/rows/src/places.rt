// A value of a row, at a place that is known to be there. This is `words::read` without its test of the place: a look-up
// reads a dozen values, and would take a third more instructions with it; and without the test it needs a `requires`,
// which no public function has. Nothing else in this crate knows that a value takes two words.
ghost use Rattle.std.specs.Prelude.{◌≡◌, ◌<◌, length};
ghost use Rattle.words.specs.Words.{room_of, value_at};

use value::Value;

// The value at place p.
pub(crate) fn get(words: &[i64], p: usize) -> Value
    requires { p < room_of (length words.now) }
    ensures { result ≡ value_at words.now p }
{
    Value {
        num: words[2 * p],
        den: words[2 * p + 1],
    }
}
