// From touches to bytes.
ghost use Rattle.std.specs.Prelude.{◌≡◌, ◌+◌, ◌*◌, ◌≤◌, length};
ghost use Rattle.laws.specs.Lists.{Laid};
ghost use Rattle.laws.specs.Numbers.{Within};
ghost use Rattle.touches.specs.Limits.{reach};
ghost use Rattle.records.specs.Record.{two_bytes, bits16, body_of, record_of};
ghost use Rattle.records.specs.Answers.{WriteGives};

use touches::{Refusal, TouchList};

// The sixteen bits of a coordinate in range, as a number.
fn bits_of(x: i32) -> u16
    requires { Within reach x }
    ensures { result ≡ bits16 x }
{
    (x as i16).cast_unsigned()
}

// Buffer and place apart, here and below: the bytes go into the lent buffer itself, and the next place is the answer.
fn put_two(buffer: &mut [u8], at: usize, n: u16) -> usize
    requires { at + 2 ≤ length buffer.old }
    ensures { Laid at (two_bytes n) buffer.old result buffer.new }
{
    buffer[at..at + 2].copy_from_slice(&n.to_be_bytes());
    at + 2
}

fn put_body(buffer: &mut [u8], start: usize, list: &TouchList<'_>) -> usize
    requires { start + length list.now.lent.now * 2 ≤ length buffer.old }
    ensures { Laid start (body_of list.now.lent.now) buffer.old result buffer.new }
{
    let mut at = start;
    for x in list.coords() {
        at = put_two(buffer, at, bits_of(*x));
    }
    at
}

fn put_record(buffer: &mut [u8], list: &TouchList<'_>, version: u8) -> usize
    requires { 3 + length list.now.lent.now * 2 ≤ length buffer.old }
    ensures { Laid 0 (record_of version list.now.lent.now) buffer.old result buffer.new }
{
    let count = 1 + list.count() * 6;
    let at = put_two(buffer, 0, count as u16);
    buffer[at] = version;
    put_body(buffer, at + 1, list)
}

pub(crate) fn write_as(buffer: &mut [u8], coords: &[i32], version: u8) -> Result<usize, Refusal>
    ensures { WriteGives version coords.now buffer.old result buffer.new }
{
    let list = touches::check(coords)?;
    if buffer.len() < 3 + 6 * list.count() {
        return Err(Refusal::RecordRoomTooSmall);
    }
    Ok(put_record(buffer, &list, version))
}
