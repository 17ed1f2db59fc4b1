// The parts of a stream of bytes, one after another: a mark of two bytes, a length of four, the lowest first, and so many
// bytes. The programs cases, reader_test and listings read such streams from standard input. Which bytes a part has, and
// which remain behind it, the contracts say of a reader whose remaining bytes are known, unless a read fails.
#![tactic(auto)]

ghost use Rattle.std.specs.Prelude.{◌≡◌, ◌≤◌, ◌<◌, IfOk, IfSome, OnOk, Some, Err, length, take, drop, option_map, vec_items, vec_len};
ghost use Rattle.std.specs.Io.KnownBytes.{Consumes, IsAtEnd};
ghost use Rattle.std.specs.IoError.{error_kind};
ghost use Rattle.stream.specs.Parts.{head_of, next_head_of, contents_of, contents_rest, next_part_of, part_rest, result_map, UnlessReading, IsReading};

use std::alloc::{AllocError, Global};
use std::error::Error;
use std::io::Read;
use std::{fmt, io};

// Why a stream is given up.
#[derive(Debug, Drop)]
pub enum StreamError {
    // What stands where a part is to begin is none, or a part is cut or too long.
    Malformed,
    Reading(io::Error),
}

impl fmt::Display for StreamError {
    fn fmt<W: fmt::Write>(&self, f: &mut fmt::Formatter<W>) -> fmt::Result {
        match self {
            StreamError::Malformed => f.write_str("malformed stream"),
            StreamError::Reading(e) => write!(f, "{e}"),
        }
    }
}

impl Error for StreamError {}

impl From<io::Error> for StreamError {
    ghost use Rattle.stream.specs.declared.StreamError.{StreamError};

    ghost from_gives = { λ e r. r ≡ StreamError.Reading e };

    fn from(e: io::Error) -> StreamError {
        StreamError::Reading(e)
    }
}

impl From<AllocError> for StreamError {
    ghost use Rattle.std.specs.declared.io.ErrorKind.{ErrorKind};

    ghost from_gives = { λ e r. IsReading r (λ cause. error_kind cause ≡ ErrorKind.OutOfMemory) };

    fn from(e: AllocError) -> StreamError {
        StreamError::Reading(io::Error::from(e))
    }
}

// The mark of a part, and the length of its contents.
#[derive(Clone, Copy, Debug, PartialEq, Eq)]
pub struct Head {
    pub mark: [u8; 2],
    pub length: u32,
}

// One read, tried again where it is interrupted, as often as std's `read_to_end` tries each of its own.
fn read_again<R: Read>(stream: &mut R, buffer: &mut [u8]) -> io::Result<usize>
    ensures within { IfOk result (λ n. n ≤ length buffer.new) }
    ensures long { length buffer.new ≡ length buffer.old }
    ensures bytes { IfOk result (λ n.
        Consumes (R.remaining stream.old) (R.remaining stream.new) (take n buffer.new)) }
    ensures end { IfOk result (λ n. n ≡ 0 → 0 < length buffer.new → IsAtEnd (R.remaining stream.new)) }
{
    for _ in 0..u64::MAX {
        match stream.read(buffer) {
            Err(e) if e.kind() == io::ErrorKind::Interrupted => {}
            told => return told,
        }
    }
    Err(io::Error::from(io::ErrorKind::TimedOut))
}

// Fills the buffer from the stream, or as far as the stream goes; how many bytes were read.
fn fill<R: Read>(stream: &mut R, buffer: &mut [u8]) -> io::Result<usize>
    ensures within { IfOk result (λ n. n ≤ length buffer.new) }
    ensures long { length buffer.new ≡ length buffer.old }
    ensures bytes { IfOk result (λ n.
        Consumes (R.remaining stream.old) (R.remaining stream.new) (take n buffer.new)) }
    ensures end { IfOk result (λ n. n < length buffer.new → IsAtEnd (R.remaining stream.new)) }
{
    let mut filled = 0;
    // It goes on by as many bytes as a read gave, which no iterator counts.
    while filled < buffer.len() {
        match read_again(stream, &mut buffer[filled..]) {
            Ok(0) => return Ok(filled),
            Ok(n) => filled += n,
            Err(e) => return Err(e),
        }
    }
    Ok(filled)
}

// The next bytes of the stream, so many, or all that are left where they are fewer.
fn next_bytes<R: Read>(alloc: Global, stream: &mut R, length: u32) -> io::Result<Vec<u8>>
    ensures bytes { IfSome (R.remaining stream.old) (λ xs.
        IfOk result (λ v. v.items ≡ take length xs)) }
    ensures rest { IfSome (R.remaining stream.old) (λ xs.
        OnOk result (R.remaining stream.new ≡ Some (drop length xs))) }
{
    let mut bytes = vec![in alloc; 0; length as usize]?;
    let filled = fill(stream, &mut bytes)?;
    bytes.truncate(filled);
    Ok(bytes)
}

// The head in six bytes.
fn head_of(h: [u8; 6]) -> Head
    ensures { result ≡ head_of h }
{
    Head {
        mark: [h[0], h[1]],
        length: u32::from_le_bytes([h[2], h[3], h[4], h[5]]),
    }
}

// The next part's head; none where the stream has ended.
pub fn next_head<R: Read>(alloc: Global, stream: &mut R) -> Result<Option<Head>, StreamError>
    ensures value { IfSome (R.remaining stream.old) (λ xs.
        UnlessReading result (result ≡ next_head_of xs)) }
    ensures rest { IfSome (R.remaining stream.old) (λ xs.
        UnlessReading result (R.remaining stream.new ≡ Some (drop 6 xs))) }
{
    let bytes = next_bytes(alloc, stream, 6)?;
    if bytes.is_empty() {
        return Ok(None);
    }
    let Ok(h) = <[u8; 6]>::try_from(bytes.as_slice()) else {
        return Err(StreamError::Malformed);
    };
    Ok(Some(head_of(h)))
}

// The contents of a part, so many bytes and no more than `most`.
pub fn contents<R: Read>(
    alloc: Global,
    stream: &mut R,
    length: u32,
    most: u32,
) -> Result<Vec<u8>, StreamError>
    ensures within { IfOk result (λ v. (vec_len v ≡ length) × (length ≤ most)) }
    ensures past { most < length → (result ≡ Err StreamError.Malformed) × (stream.new ≡ stream.old) }
    ensures value { IfSome (R.remaining stream.old) (λ xs.
        UnlessReading result (result_map vec_items result ≡ contents_of length most xs)) }
    ensures rest { IfSome (R.remaining stream.old) (λ xs.
        UnlessReading result (R.remaining stream.new ≡ Some (contents_rest length most xs))) }
{
    if length > most {
        return Err(StreamError::Malformed);
    }
    let bytes = next_bytes(alloc, stream, length)?;
    if bytes.len() != length as usize {
        return Err(StreamError::Malformed);
    }
    Ok(bytes)
}

// The contents of the next part, which is to have this mark and at most so many bytes; none where the stream has ended.
pub fn next_part<R: Read>(
    alloc: Global,
    stream: &mut R,
    mark: [u8; 2],
    most: u32,
) -> Result<Option<Vec<u8>>, StreamError>
    ensures within { IfOk result (λ o. IfSome o (λ v. vec_len v ≤ most)) }
    ensures value { IfSome (R.remaining stream.old) (λ xs.
        UnlessReading result (result_map (option_map vec_items) result ≡ next_part_of mark most xs)) }
    ensures rest { IfSome (R.remaining stream.old) (λ xs.
        UnlessReading result (R.remaining stream.new ≡ Some (part_rest mark most xs))) }
{
    let Some(h) = next_head(alloc, stream)? else {
        return Ok(None);
    };
    if h.mark != mark {
        return Err(StreamError::Malformed);
    }
    let bytes = contents(alloc, stream, h.length, most)?;
    Ok(Some(bytes))
}

#[cfg(test)]
mod tests {
    use super::*;

    // Two parts of a stream are read, and then it has ended.
    #[test]
    fn parts_are_read(rt: HostRuntime) {
        let bytes = b"DA\x03\x00\x00\x00abcQU\x00\x00\x00\x00";
        let mut stream: &[u8] = bytes;
        let first = next_part(rt.alloc(), &mut stream, *b"DA", 3);
        let Ok(Some(first)) = first else {
            assert!(rt; false);
            return;
        };
        assert_eq!(rt; first.as_slice(), b"abc".as_slice());
        let second = next_part(rt.alloc(), &mut stream, *b"QU", 0);
        assert!(rt; matches!(second, Ok(Some(_))));
        let third = next_part(rt.alloc(), &mut stream, *b"QU", 0);
        assert!(rt; matches!(third, Ok(None)));
    }

    // Another mark, a longer part, a part that is cut and a head that is cut are malformed.
    #[test]
    fn faults_are_told(rt: HostRuntime) {
        for (bytes, most) in [
            (b"QU\x01\x00\x00\x00a" as &[u8], 1),
            (b"DA\x02\x00\x00\x00ab", 1),
            (b"DA\x02\x00\x00\x00a", 2),
            (b"DA\x00\x00\x00", 2),
        ] {
            let mut stream: &[u8] = bytes;
            let told = next_part(rt.alloc(), &mut stream, *b"DA", most);
            assert!(rt; matches!(told, Err(StreamError::Malformed)));
        }
    }

    // It is interrupted so many times before each read, gives a byte at a time, and fails where its bytes end.
    #[derive(Drop)]
    struct Halting<'a> {
        bytes: &'a [u8],
        interruptions: u32,
        left: u32,
    }

    impl Halting<'_> {
        fn on<'a>(bytes: &'a [u8], interruptions: u32) -> Halting<'a> {
            Halting {
                bytes,
                interruptions,
                left: interruptions,
            }
        }
    }

    impl Read for Halting<'_> {
        fn read(&mut self, buf: &mut [u8]) -> io::Result<usize> {
            if self.left > 0 {
                self.left -= 1;
                return Err(io::Error::from(io::ErrorKind::Interrupted));
            }
            self.left = self.interruptions;
            if self.bytes.is_empty() {
                return Err(io::Error::from(io::ErrorKind::Other));
            }
            let most = buf.len().min(1);
            self.bytes.read(&mut buf[..most])
        }
    }

    // An interrupted read is tried again, however often that is, and any other that fails is told.
    #[test]
    fn interrupted_reads_are_tried_again(rt: HostRuntime) {
        for interruptions in [1, 1000] {
            let mut stream = Halting::on(b"DA\x03\x00\x00\x00abcDA", interruptions);
            let first = next_part(rt.alloc(), &mut stream, *b"DA", 3);
            let Ok(Some(first)) = first else {
                assert!(rt; false);
                return;
            };
            assert_eq!(rt; first.as_slice(), b"abc".as_slice());
            let second = next_part(rt.alloc(), &mut stream, *b"DA", 3);
            assert!(rt; matches!(second, Err(StreamError::Reading(_))));
        }
    }
}
