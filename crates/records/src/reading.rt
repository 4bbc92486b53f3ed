// From bytes to touches.
ghost use Rattle.std.specs.Prelude.{◌≡◌, ◌*◌, ◌/◌, ◌%◌, ◌≤◌, length};
ghost use Rattle.laws.specs.Lists.{lay};
ghost use Rattle.touches.specs.Limits.{most_touches};
ghost use Rattle.touches.specs.Check.{coords_of};
ghost use Rattle.records.specs.Record.{of_two, signed16, touches_of};
ghost use Rattle.records.specs.Answers.{checked_record, ReadGives};

use touches::{Refusal, TouchList};

fn of_two(high: u8, low: u8) -> usize
    ensures { result ≡ of_two high low }
{
    usize::from(u16::from_be_bytes([high, low]))
}

fn coordinate(high: u8, low: u8) -> i32
    ensures { result ≡ signed16 (of_two high low) }
{
    i32::from(i16::from_be_bytes([high, low]))
}

// The coordinates of a body of whole touches, to the front of room.
fn unpack(room: &mut [i32], body: &[u8])
    requires whole { length body.now % 6 ≡ 0 }
    requires room { length body.now / 2 ≤ length room.old }
    ensures { room.new ≡ lay 0 (touches_of body.now) room.old }
{
    // By index: no invariant can speak of what is written through `iter_mut().zip(..)`, and the proof does not close.
    for (i, pair) in body.chunks_exact(2).enumerate() {
        room[i] = coordinate(pair[0], pair[1]);
    }
}

// Refusals 8, 9, 10, 2 and 3 of a record; an accepted one's touches, in room.
#[tactic(auto, using(crate::proofs::CheckLaws::is_many), unfolding(crate::specs::Answers::checked_record))]
fn check_record<'a>(
    room: &'a mut [i32],
    bytes: &[u8],
    version: u8,
) -> Result<TouchList<'a>, Refusal>
    requires { length room.old ≡ most_touches * 3 }
    ensures { coords_of result ≡ checked_record version bytes.now }
{
    if bytes.len() < 3 {
        return Err(Refusal::RecordLengthWrong);
    }
    let n = of_two(bytes[0], bytes[1]);
    if n != bytes.len() - 2 {
        return Err(Refusal::RecordLengthWrong);
    }
    if bytes[2] != version {
        return Err(Refusal::RecordVersionUnknown);
    }
    if (n - 1) % 6 != 0 {
        return Err(Refusal::RecordTouchCutShort);
    }
    if TouchList::MOST < (n - 1) / 6 {
        return Err(Refusal::TooManyTouches);
    }
    unpack(room, &bytes[3..]);
    touches::check(&room[..(n - 1) / 2])
}

pub(crate) fn read_as(coords: &mut [i32], bytes: &[u8], version: u8) -> Result<usize, Refusal>
    ensures { ReadGives version bytes.now coords.old result coords.new }
{
    let mut room = [0i32; TouchList::MOST * 3];
    let list = check_record(&mut room, bytes, version)?;
    let read = list.coords();
    let m = read.len();
    if coords.len() < m {
        return Err(Refusal::TouchRoomTooSmall);
    }
    coords[..m].copy_from_slice(read);
    Ok(list.count())
}
