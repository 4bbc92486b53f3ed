// Touch records: reading, writing and copying.
#![tactic(auto)]

mod reading;
mod writing;

ghost use Rattle.records.specs.Record.{plain_version};
ghost use Rattle.records.specs.Answers.{ReadGives, WriteGives, CopyGives};

use touches::{Refusal, TouchList};

// The version that the plain calls read and write.
const PLAIN: u8 = 1;

// The touches of a record, into the lent list: their count.
pub fn read(bytes: &[u8], coords: &mut [i32]) -> Result<usize, Refusal>
    ensures { ReadGives plain_version bytes.now coords.old result coords.new }
{
    reading::read_as(coords, bytes, PLAIN)
}

// The record of a touch list, into the lent buffer: the count of its bytes.
pub fn write(coords: &[i32], buffer: &mut [u8]) -> Result<usize, Refusal>
    ensures { WriteGives plain_version coords.now buffer.old result buffer.new }
{
    writing::write_as(buffer, coords, PLAIN)
}

// The archive copier: a record read, and its touches written again.
pub fn copy(bytes: &[u8], buffer: &mut [u8]) -> Result<usize, Refusal>
    ensures { CopyGives plain_version bytes.now buffer.old result buffer.new }
{
    let mut room = [0i32; TouchList::MOST * 3];
    let n = read(bytes, &mut room)?;
    write(&room[..n * 3], buffer)
}
