// How a value is stored: numerator, then denominator, a word each. Nothing but these two functions, `room`, the reader
// of the crate `rows` and specs/Words.antt knows it, so that packing a value into one word, or storing an absent one,
// changes these alone.
ghost use Rattle.std.specs.Prelude.{◌≡◌, ◌<◌, length};
ghost use Rattle.words.specs.Words.{room_of, value_at, with_value};

use value::Value;

// The value at place p.
pub(crate) fn get(words: &[i64], p: usize) -> Value
    requires { p < room_of (length words.now) }
    ensures { result ≡ value_at words.now p }
{
    Value {
        num: words[2 * p],
        den: words[2 * p + 1],
    }
}

// A value put at place p.
pub(crate) fn put(words: &mut [i64], p: usize, v: Value)
    requires { p < room_of (length words.old) }
    ensures { words.new ≡ with_value words.old p v }
{
    words[2 * p] = v.num;
    words[2 * p + 1] = v.den;
}
