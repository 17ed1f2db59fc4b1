// Lent buffers: filled with known words before a run, and looked through after it.
ghost use Rattle.std.specs.Prelude.{◌<◌};

// The word at a place before a run: from 7 to 257, so never 0, and others at the places near by.
fn known(i: usize) -> u16
    ensures { result < 258 }
{
    (i % 251) as u16 + 7
}

// Every word as it is before a run.
pub(crate) fn fill<T: From<u16> + Drop>(words: &mut [T]) {
    for (i, word) in words.iter_mut().enumerate() {
        *word = T::from(known(i));
    }
}

// Whether all words before a place are 0, and all others as they were.
pub(crate) fn zeroed<T: Copy + Into<i64>>(words: &[T], place: usize) -> bool {
    words.iter().enumerate().all(|(i, word)| {
        let left: i64 = (*word).into();
        left == if i < place { 0 } else { i64::from(known(i)) }
    })
}

// Whether all words from a place on are as they were.
pub(crate) fn kept(words: &[i64], place: usize) -> bool {
    words
        .iter()
        .enumerate()
        .skip(place)
        .all(|(i, word)| *word == i64::from(known(i)))
}
