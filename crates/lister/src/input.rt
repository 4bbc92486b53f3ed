// The listing program: a record is read to its end, and its listing written.
ghost use Rattle.std.specs.Prelude.{◌≢◌, ◌<◌, ◌≤◌, length, take, IfOk, IfErr, OnOk, IfSome};
ghost use Rattle.std.specs.IoError.{error_kind};
ghost use Rattle.std.specs.Io.KnownBytes.{Appends, Consumes, IsAtEnd};
ghost use Rattle.lister.specs.Listing.{listing};

use crate::{MOST_BYTES, ROOM, list};
use std::io;
use std::io::{ErrorKind, Read, Write};

// Reads until the bytes are full or the input ends: how many there are.
fn read_full<R: Read>(input: &mut R, bytes: &mut [u8]) -> io::Result<usize>
    ensures within { IfOk result (λ n. n ≤ length bytes.new) }
    ensures bytes { IfOk result (λ n. Consumes (R.remaining input.old) (R.remaining input.new) (take n bytes.new)) }
    ensures end { IfOk result (λ n. n < length bytes.new → IsAtEnd (R.remaining input.new)) }
    ensures retried { IfErr result (λ e. error_kind e ≢ ErrorKind.Interrupted) }
{
    let mut n = 0;
    for _ in 0..u64::MAX {
        match input.read(&mut bytes[n..]) {
            Ok(0) => return Ok(n),
            Ok(k) => n += k,
            Err(e) if e.kind() == ErrorKind::Interrupted => {}
            Err(e) => return Err(e),
        }
    }
    // No loop is without an end: after 2⁶⁴ − 1 reads this one gives up, as std's do.
    Err(io::Error::from(ErrorKind::TimedOut))
}

// Of a record that is too long one byte more than the most is read, so that the listing knows.
pub fn list_input<R: Read, W: Write>(input: &mut R, output: &mut W) -> io::Result<()>
    ensures { OnOk result (IfSome (R.remaining input.old) (λ r. Appends (W.contents output.old) (W.contents output.new) (listing r))) }
{
    let mut bytes = [0u8; MOST_BYTES + 1];
    let mut text = [0u8; ROOM];
    let n = read_full(input, &mut bytes)?;
    let m = list(&bytes[..n], &mut text);
    output.write_all(&text[..m])
}
