// Causes 3 and 4 at every limit and one past it, the readers on slices laid out and not, and the index
// with its ranges. Each line says what is tried; tests/tables_expected.py prints the same lines by the evaluator.
#![tactic(auto)]

use model::Refusal;
use std::io;

// The number of a refusal, 0 of none.
fn number(told: Result<(), Refusal>) -> u64 {
    u64::from(model::number(told))
}

// Prints a line: what is tried, and the answer.
fn say(rt: &impl Print, what: &str, answer: u64) -> io::Result<()> {
    println!(rt; "{what}: {answer}")
}

// The check of some words.
fn checked(rt: &impl Print, what: &str, words: &[i32]) -> io::Result<()> {
    say(rt, what, number(tables::check(words)))
}

// The check of the first words of some.
fn checked_part(rt: &impl Print, what: &str, words: &[i32], length: usize) -> io::Result<()> {
    if length <= words.len() {
        checked(rt, what, &words[..length])?;
    }
    Ok(())
}

// Writes a word where there is one.
fn put(words: &mut [i32], at: usize, value: i32) {
    if at < words.len() {
        words[at] = value;
    }
}

// Writes the counts of 9 equal tables behind the first word.
fn count_all(words: &mut [i32], columns: i32, rows: i32) {
    for t in 0..9 {
        put(words, 1 + 2 * t, columns);
        put(words, 2 + 2 * t, rows);
    }
}

// The check of so many words: n equal tables; the cells are counts of further tables, then 5.
fn equal_tables(
    rt: &impl Print,
    what: &str,
    n: i32,
    columns: i32,
    rows: i32,
    length: usize,
) -> io::Result<()> {
    let mut words = [5i32; 2100];
    count_all(&mut words, columns, rows);
    put(&mut words, 0, n);
    checked_part(rt, what, &words, length)
}

// The check of so many words: seven full tables, and one of 8 columns and some rows; the last of 16,377 words as given.
fn full_tables(rt: &impl Print, what: &str, rows: i32, length: usize, last: i32) -> io::Result<()> {
    let mut words = [5i32; 16385];
    count_all(&mut words, 8, 256);
    put(&mut words, 0, 8);
    put(&mut words, 16, rows);
    put(&mut words, 17, 5);
    put(&mut words, 18, 5);
    put(&mut words, 16376, last);
    checked_part(rt, what, &words, length)
}

// Tables and columns at both ends and one past them.
fn table_limits(rt: &impl Print) -> io::Result<()> {
    equal_tables(rt, "0 tables", 0, 1, 1, 1)?;
    equal_tables(rt, "1 table", 1, 1, 1, 4)?;
    equal_tables(rt, "8 tables", 8, 1, 1, 25)?;
    equal_tables(rt, "9 tables", 9, 1, 1, 28)?;
    equal_tables(rt, "0 columns", 1, 0, 1, 3)?;
    equal_tables(rt, "1 column", 1, 1, 1, 4)?;
    equal_tables(rt, "8 columns", 1, 8, 1, 11)?;
    equal_tables(rt, "9 columns", 1, 9, 1, 12)
}

// Rows and words at both ends and one past them.
fn row_limits(rt: &impl Print) -> io::Result<()> {
    equal_tables(rt, "0 rows", 1, 1, 0, 3)?;
    equal_tables(rt, "256 rows", 1, 1, 256, 259)?;
    equal_tables(rt, "257 rows", 1, 1, 257, 260)?;
    equal_tables(rt, "256 rows of 8 columns", 1, 8, 256, 2051)?;
    full_tables(rt, "16,377 words", 253, 16377, 5)?;
    full_tables(rt, "16,377 words, one missing", 253, 16376, 5)?;
    full_tables(rt, "16,377 words and one more", 253, 16378, 5)?;
    full_tables(rt, "16,385 words", 254, 16385, 5)?;
    full_tables(
        rt,
        "16,377 words, the last out of range",
        253,
        16377,
        1000001,
    )?;
    full_tables(rt, "16,385 words, one out of range", 254, 16385, 1000001)
}

// Cells at both ends and one past them.
fn value_limits(rt: &impl Print) -> io::Result<()> {
    let greatest = [1i32, 1, 1, 1000000];
    checked(rt, "value 1,000,000", &greatest)?;
    let over = [1i32, 1, 1, 1000001];
    checked(rt, "value 1,000,001", &over)?;
    let least = [1i32, 1, 1, -1000000];
    checked(rt, "value -1,000,000", &least)?;
    let under = [1i32, 1, 1, -1000001];
    checked(rt, "value -1,000,001", &under)?;
    let lowest = [1i32, 1, 1, -2147483648];
    checked(rt, "value -2,147,483,648", &lowest)?;
    let both = [1i32, 1, 1, 1000001, 0];
    checked(rt, "value 1,000,001 and a word more", &both)
}

// A directory and cells cut after each word.
fn word_counts(rt: &impl Print) -> io::Result<()> {
    let words = [2i32, 1, 1, 1, 1, 3, 4];
    checked(rt, "no words", &words[..0])?;
    checked(rt, "first word alone", &words[..1])?;
    checked(rt, "directory cut after 2 words", &words[..2])?;
    checked(rt, "directory cut after 4 words", &words[..4])?;
    checked(rt, "directory alone", &words[..5])?;
    checked(rt, "a cell missing", &words[..6])?;
    checked(rt, "all words", &words[..7])
}

// Counts that no table can have.
fn counts_of_directory(rt: &impl Print) -> io::Result<()> {
    let tables = [2147483647i32, 1, 1, 5];
    checked(rt, "2,147,483,647 tables", &tables)?;
    let columns = [1i32, 2147483647, 1, 5];
    checked(rt, "2,147,483,647 columns", &columns)?;
    let rows = [1i32, 1, 2147483647, 5];
    checked(rt, "2,147,483,647 rows", &rows)?;
    let most = [1i32, 2147483647, 2147483647, 5];
    checked(rt, "2,147,483,647 columns and rows", &most)?;
    let no_tables = [-1i32, 1, 1, 5];
    checked(rt, "-1 tables", &no_tables)?;
    let no_columns = [1i32, -1, 1, 5];
    checked(rt, "-1 columns", &no_columns)?;
    let no_rows = [1i32, 1, -1, 5];
    checked(rt, "-1 rows", &no_rows)?;
    let value = [1i32, 1, 2000000, 5];
    checked(rt, "2,000,000 rows", &value)
}

// The counts and the first cell of some words, laid out or not.
fn read(rt: &impl Print, what: &str, words: &[i32], t: u8) -> io::Result<()> {
    println!(rt; "{what}")?;
    say(rt, "  tables", tables::tables(words) as u64)?;
    say(rt, "  columns", tables::columns(words, t) as u64)?;
    say(rt, "  rows", tables::rows(words, t) as u64)?;
    let p = tables::place_of(words, t);
    say(rt, "  first cell", p.base as u64)?;
    say(rt, "  down", p.down as u64)?;
    say(rt, "  across", p.across as u64)
}

// Readers on slices that are laid out, empty and absurd.
fn readers(rt: &impl Print) -> io::Result<()> {
    let words = [2i32, 1, 2, 2, 2, 10, 11, 20, 21, 22, 23];
    read(rt, "table 0 of 2", &words, 0)?;
    read(rt, "table 1 of 2", &words, 1)?;
    read(rt, "table 0 of no words", &words[..0], 0)?;
    let claims = [2147483647i32, 2147483647, 2147483647, 1, 1];
    read(rt, "table 255 of 2,147,483,647", &claims, 255)
}

// A cell that is not negative; 999,999,999 where it is.
fn shown(x: i32) -> u64 {
    if x < 0 {
        return 999999999;
    }
    x as u64
}

// Cells inside tables and past them.
fn cells(rt: &impl Print) -> io::Result<()> {
    let words = [2i32, 1, 2, 2, 2, 10, 11, 20, 21, 22, 23];
    say(
        rt,
        "table 0, row 1, column 0",
        shown(tables::cell(&words, 0, 1, 0)),
    )?;
    say(
        rt,
        "table 1, row 0, column 0",
        shown(tables::cell(&words, 1, 0, 0)),
    )?;
    say(
        rt,
        "table 1, row 0, column 1",
        shown(tables::cell(&words, 1, 0, 1)),
    )?;
    say(
        rt,
        "table 1, row 1, column 0",
        shown(tables::cell(&words, 1, 1, 0)),
    )?;
    say(
        rt,
        "table 1, row 1, column 1",
        shown(tables::cell(&words, 1, 1, 1)),
    )?;
    say(
        rt,
        "table 1, row 2, column 0",
        shown(tables::cell(&words, 1, 2, 0)),
    )?;
    say(
        rt,
        "table 255, row 65,535, column 255",
        shown(tables::cell(&words, 255, 65535, 255)),
    )
}

// Prints words on one line.
fn line(rt: &impl Print, words: &[u16]) -> io::Result<()> {
    for word in words {
        print!(rt; " {word}")?;
    }
    println!(rt)
}

// The index in so many of 9 words, each 7 before: the number, then all words.
fn indexed(
    rt: &impl Print,
    what: &str,
    words: &[i32],
    t: u8,
    c: u8,
    length: usize,
) -> io::Result<()> {
    let mut out = [7u16; 9];
    index_part(rt, what, words, t, c, &mut out, length)?;
    line(rt, &out)
}

// The index in the first words of a buffer.
fn index_part(
    rt: &impl Print,
    what: &str,
    words: &[i32],
    t: u8,
    c: u8,
    out: &mut [u16],
    length: usize,
) -> io::Result<()> {
    if length <= out.len() {
        say(
            rt,
            what,
            number(indexes::index(words, t, c, &mut out[..length])),
        )?;
    }
    Ok(())
}

// Indexes with ties, in as many words as needed and more, and refusals 7 and 2.
fn indexes(rt: &impl Print) -> io::Result<()> {
    let words = [
        2i32, 3, 6, 1, 0, 3, 8, 5, -1, 8, 5, 3, 8, -5, 0, 8, 5, -1, 8, -5, 3, 8, 1000000,
    ];
    indexed(rt, "index of column 0", &words, 0, 0, 9)?;
    indexed(rt, "index of column 1, all ties", &words, 0, 1, 7)?;
    indexed(rt, "index of column 2, just room", &words, 0, 2, 6)?;
    indexed(rt, "index of a table without rows", &words, 1, 0, 0)?;
    indexed(rt, "index of column 3 of 3", &words, 0, 3, 9)?;
    indexed(rt, "index of table 2 of 2", &words, 2, 0, 9)?;
    indexed(rt, "index in 5 words for 6 rows", &words, 0, 0, 5)?;
    indexed(
        rt,
        "index of an absent column in no words",
        &words,
        0,
        255,
        0,
    )
}

// Refusals 3 and 4, which come before 7 and 2.
fn refused_indexes(rt: &impl Print) -> io::Result<()> {
    let value = [1i32, 1, 1, 1000001];
    indexed(
        rt,
        "index of data under 4, table absent, no room",
        &value,
        9,
        9,
        0,
    )?;
    let layout = [1i32, 1, 1, 1000001, 5];
    indexed(rt, "index of data under 3", &layout, 0, 0, 9)?;
    indexed(rt, "index of no data", &layout[..0], 0, 0, 9)
}

// The range of a value in an index.
fn ranged(
    rt: &impl Print,
    what: &str,
    words: &[i32],
    index: &[u16],
    wanted: i64,
) -> io::Result<()> {
    let r = ranges::range_of(words, 0, 0, index, wanted);
    println!(rt; "{what}: {} {}", r.from, r.to)
}

// Ranges of values that are there and of one between them.
fn ranges(rt: &impl Print, words: &[i32], index: &[u16]) -> io::Result<()> {
    ranged(rt, "range of -1", words, index, -1)?;
    ranged(rt, "range of 0", words, index, 0)?;
    ranged(rt, "range of 1", words, index, 1)?;
    ranged(rt, "range of 3", words, index, 3)?;
    ranged(rt, "range of -2", words, index, -2)?;
    ranged(rt, "range of 4", words, index, 4)
}

// Ranges of values that no cell can have.
fn far_ranges(rt: &impl Print, words: &[i32], index: &[u16]) -> io::Result<()> {
    ranged(
        rt,
        "range of 1,000,000,000,000,000",
        words,
        index,
        1000000000000000,
    )?;
    ranged(
        rt,
        "range of -1,000,000,000,000,000",
        words,
        index,
        -1000000000000000,
    )?;
    ranged(rt, "range of 4,294,967,299", words, index, 4294967299)?;
    ranged(rt, "range of 2 ^ 63 - 1", words, index, 9223372036854775807)?;
    ranged(rt, "range of -2 ^ 63", words, index, -9223372036854775808)
}

// Ranges in an index of six rows.
fn small_ranges(rt: &impl Print) -> io::Result<()> {
    let words = [
        1i32, 3, 6, 3, 8, 5, -1, 8, 5, 3, 8, -5, 0, 8, 5, -1, 8, -5, 3, 8, 1000000,
    ];
    let mut out = [7u16; 9];
    say(
        rt,
        "index for ranges",
        number(indexes::index(&words, 0, 0, &mut out)),
    )?;
    ranges(rt, &words, &out)?;
    far_ranges(rt, &words, &out)
}

// Writes 256 values from 0 to 22 behind the directory.
fn spread(words: &mut [i32]) {
    for r in 0..256 {
        put(words, 3 + r, ((r * 7) % 23) as i32);
    }
}

// 256 rows: the index and every range of a value.
fn large_index(rt: &impl Print) -> io::Result<()> {
    let mut words = [256i32; 259];
    words[0] = 1;
    words[1] = 1;
    spread(&mut words);
    let mut out = [7u16; 257];
    say(
        rt,
        "index of 256 rows",
        number(indexes::index(&words, 0, 0, &mut out)),
    )?;
    line(rt, &out)?;
    ranged(rt, "range of 0 in 256 rows", &words, &out, 0)?;
    ranged(rt, "range of 11 in 256 rows", &words, &out, 11)?;
    ranged(rt, "range of 22 in 256 rows", &words, &out, 22)?;
    ranged(rt, "range of 23 in 256 rows", &words, &out, 23)
}

// All lines, in the order of tests/tables_expected.py.
fn main(rt: HostRuntime) -> io::Result<()> {
    table_limits(&rt)?;
    row_limits(&rt)?;
    value_limits(&rt)?;
    word_counts(&rt)?;
    counts_of_directory(&rt)?;
    readers(&rt)?;
    cells(&rt)?;
    indexes(&rt)?;
    refused_indexes(&rt)?;
    small_ranges(&rt)?;
    large_index(&rt)
}
