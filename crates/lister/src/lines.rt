// The text put so far: in a clause it is its bytes.
ghost use Rattle.std.specs.Prelude.{◌≡◌, [], ◌∷◌, ◌++◌, ◌+◌, ◌≤◌, length};
ghost use Rattle.text.specs.Decimal.{decimal, whole, newline};
ghost use Rattle.lister.specs.Room.{field_room, volume_room, listing_room};

use crate::ROOM;
use std::marker::Model;

#[derive(Drop)]
pub(crate) struct Lines {
    room: [u8; ROOM],
    end: usize,
}

impl Model for Lines {
    ghost use Rattle.std.specs.Prelude.{ℕ, List, ◌≤◌, length, take};

    ghost Value = { List ℕ };

    ghost view = { λ l. take l.end l.room };

    ghost invariant = { λ l. l.end ≤ length l.room };
}

impl Lines {
    pub(crate) fn new() -> Lines
        ensures { result ≡ [] }
    {
        Lines {
            room: [0u8; ROOM],
            end: 0,
        }
    }

    pub(crate) fn bytes(&self) -> &[u8]
        ensures is { result.now ≡ self.now }
        ensures fits { length self.now ≤ listing_room }
    {
        &self.room[..self.end]
    }

    // Here and below the room is asked for: how much is left depends on what was put.
    pub(crate) fn put_word(&mut self, word: &[u8])
        requires { length self.old + length word.now ≤ listing_room }
        ensures { self.new ≡ self.old ++ word.now }
    {
        self.end = text::put_bytes(&mut self.room, self.end, word);
    }

    // A count, a refusal's number or a touch number, and the space or newline after it.
    pub(crate) fn put_field(&mut self, n: u16, after: u8)
        requires { length self.old + field_room ≤ listing_room }
        ensures put { self.new ≡ self.old ++ decimal n ++ after ∷ [] }
        ensures short { length self.new ≤ length self.old + field_room }
    {
        self.end = text::put_decimal(&mut self.room, self.end, u64::from(n));
        self.put_word(&[after]);
    }

    // Apart from `put_field`, since their room differs: 21 bytes here and 6 there, and the room of a face's line is three times the smaller.
    pub(crate) fn put_volume(&mut self, v: i64)
        requires { length self.old + volume_room ≤ listing_room }
        ensures put { self.new ≡ self.old ++ whole v ++ newline ∷ [] }
        ensures short { length self.new ≤ length self.old + volume_room }
    {
        self.end = text::put_whole(&mut self.room, self.end, v);
        self.put_word(b"\n");
    }
}
