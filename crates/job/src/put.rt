// Text put into lent bytes at a place, as far as there is room; each function gives the place after it, no further than
// the end.
ghost use Rattle.std.specs.Prelude.{[], ◌∷◌, ◌++◌, ◌≡◌, ◌+◌, ◌*◌, ◌/◌, ◌<◌, ◌≤◌, length};
ghost use Rattle.model.specs.Listing.{digits, integer_text, no_line};
ghost use Rattle.job.specs.Texts.{Wrote, ratio_text, gap_text, field_text, line_text, lines_text};
ghost use Rattle.job.specs.Texts.{ok_text};

// One byte.
fn byte(out: &mut [u8], at: usize, b: u8) -> usize
    requires { at ≤ length out.old }
    ensures { Wrote at (b ∷ []) out.old out.new result }
{
    if at < out.len() {
        out[at] = b;
        return at + 1;
    }
    at
}

// Letters as they are.
pub(crate) fn letters(out: &mut [u8], at: usize, t: &[u8]) -> usize
    requires { at ≤ length out.old }
    ensures { Wrote at t.now out.old out.new result }
{
    let mut next = at;
    for b in t {
        next = byte(out, next, *b);
    }
    next
}

fn digit(n: u64) -> u8
    requires { n < 10 }
    ensures { result ≡ 48 + n }
{
    b'0' + (n as u8)
}

// A number without sign, its first digits before its last: at most 20 calls. The library prints a number into a writer
// of its own; here the contract names the model's `digits`, as far as there is room in the lent bytes.
fn number(out: &mut [u8], at: usize, n: u64) -> usize
    requires { at ≤ length out.old }
    ensures { Wrote at (digits n) out.old out.new result }
{
    if n < 10 {
        return byte(out, at, digit(n));
    }
    let next = number(out, at, n / 10);
    byte(out, next, digit(n % 10))
}

// A number with its sign.
fn integer(out: &mut [u8], at: usize, x: i64) -> usize
    requires { at ≤ length out.old }
    ensures { Wrote at (integer_text x) out.old out.new result }
{
    let n = x.unsigned_abs();
    if x < 0 {
        let next = byte(out, at, b'-');
        return number(out, next, n);
    }
    number(out, at, n)
}

// A value: its numerator alone where the denominator is 1, a minus sign alone where it is absent.
fn ratio(out: &mut [u8], at: usize, num: i64, den: i64) -> usize
    requires { at ≤ length out.old }
    ensures { Wrote at (ratio_text num den) out.old out.new result }
{
    let is_absent = den == 0;
    if is_absent {
        return byte(out, at, b'-');
    }
    let next = integer(out, at, num);
    if den == 1 {
        return next;
    }
    let last = byte(out, next, b'/');
    integer(out, last, den)
}

// The space before field j, none before the first.
fn gap(out: &mut [u8], at: usize, j: usize) -> usize
    requires { at ≤ length out.old }
    ensures { Wrote at (gap_text j) out.old out.new result }
{
    if j == 0 {
        return at;
    }
    byte(out, at, b' ')
}

// The value at place p of the words.
fn value(words: &[i64], out: &mut [u8], at: usize, p: usize) -> usize
    requires { (at ≤ length out.old) × (p < length words.now / 2) }
    ensures { Wrote at (field_text words.now p) out.old out.new result }
{
    ratio(out, at, words[2 * p], words[2 * p + 1])
}

// Field j of the row that begins at place p.
fn field(words: &[i64], out: &mut [u8], at: usize, p: usize, j: usize) -> usize
    requires { (at ≤ length out.old) × (p + j < length words.now / 2) }
    ensures { Wrote at (gap_text j ++ field_text words.now (p + j)) out.old out.new result }
{
    let next = gap(out, at, j);
    value(words, out, next, p + j)
}

// The row that begins at place p.
fn line(words: &[i64], out: &mut [u8], at: usize, p: usize, columns: usize) -> usize
    requires { (at ≤ length out.old) × (p + columns ≤ length words.now / 2) }
    ensures { Wrote at (line_text words.now p columns) out.old out.new result }
{
    let mut next = at;
    for j in 0..columns {
        next = field(words, out, next, p, j);
    }
    byte(out, next, b'\n')
}

// The first n rows, until there is no more room.
pub(crate) fn lines(words: &[i64], out: &mut [u8], at: usize, columns: usize, n: usize) -> usize
    requires { (at ≤ length out.old) × (n * columns ≤ length words.now / 2) }
    ensures { Wrote at (lines_text words.now columns n) out.old out.new result }
{
    let mut next = at;
    for r in 0..n {
        if next == out.len() {
            break;
        }
        next = line(words, out, next, r * columns, columns);
    }
    next
}

// A number, and one byte after it.
fn figure(out: &mut [u8], at: usize, n: u64, b: u8) -> usize
    requires { at ≤ length out.old }
    ensures { Wrote at (digits n ++ (b ∷ [])) out.old out.new result }
{
    let next = number(out, at, n);
    byte(out, next, b)
}

// The first line of an accepted answer.
pub(crate) fn ok_line(out: &mut [u8], rows: u64, columns: u64, trials: u64) -> usize
    ensures { Wrote 0 (ok_text rows columns trials) out.old out.new result }
{
    let first = letters(out, 0, b"ok ");
    let second = figure(out, first, rows, b' ');
    let third = figure(out, second, columns, b' ');
    figure(out, third, trials, b'\n')
}

// The line of a refusal.
pub(crate) fn no_line(out: &mut [u8], n: u8) -> usize
    ensures { Wrote 0 (no_line n) out.old out.new result }
{
    let first = letters(out, 0, b"no ");
    figure(out, first, u64::from(n), b'\n')
}
