// Why a call was refused. The name of each refusal is the key of its text in texts/meanings.tsv.
ghost use Rattle.std.specs.Prelude.{◌≡◌, Some};
ghost use Rattle.touches.specs.Refusals.{number, place, shown};

use crate::TouchNo;
use std::error::Error;
use std::fmt;

#[derive(Clone, Copy, Debug, PartialEq, Eq)]
pub enum Refusal {
    CoordinatesNotInThrees,
    TooManyTouches,
    CoordinateOutOfRange(TouchNo),
    AllTouchesOnOnePlane,
    FaceTableTooSmall,
    NoSuchFace,
    PlaceOutOfRange,
    RecordLengthWrong,
    RecordVersionUnknown,
    RecordTouchCutShort,
    TouchRoomTooSmall,
    RecordRoomTooSmall,
    PlaceInNoTriangle,
}

impl Refusal {
    // The paper's number.
    pub fn number(self) -> u8
        ensures { result ≡ number self }
    {
        match self {
            Refusal::CoordinatesNotInThrees => 1,
            Refusal::TooManyTouches => 2,
            Refusal::CoordinateOutOfRange(_) => 3,
            Refusal::AllTouchesOnOnePlane => 4,
            Refusal::FaceTableTooSmall => 5,
            Refusal::NoSuchFace => 6,
            Refusal::PlaceOutOfRange => 7,
            Refusal::RecordLengthWrong => 8,
            Refusal::RecordVersionUnknown => 9,
            Refusal::RecordTouchCutShort => 10,
            Refusal::TouchRoomTooSmall => 11,
            Refusal::RecordRoomTooSmall => 12,
            Refusal::PlaceInNoTriangle => 17,
        }
    }

    // The touch that it speaks of, 0 where it speaks of none.
    pub fn place(self) -> TouchNo
        ensures { result ≡ place self }
    {
        match self {
            Refusal::CoordinateOutOfRange(k) => k,
            _ => TouchNo(0),
        }
    }
}

impl fmt::Display for Refusal {
    ghost output = { λ r. Some (shown r) };

    fn fmt<W: fmt::Write>(&self, f: &mut fmt::Formatter<W>) -> fmt::Result {
        write!(f, "refused {} {}", self.number(), self.place().0)
    }
}

impl Error for Refusal {}
