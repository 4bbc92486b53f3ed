// The tables of cases. A case says what it has unlike the constant that it begins with; the lines between name the refusals that apply.
use std::fmt;

// T's record, and T.
pub const RECORD_T: [u8; 27] = [
    0, 25, 1, 0, 0, 0, 0, 0, 0, 0, 10, 0, 0, 0, 0, 0, 0, 0, 10, 0, 0, 0, 0, 0, 0, 0, 10,
];

pub const T: [i32; 12] = [0, 0, 0, 10, 0, 0, 0, 10, 0, 0, 0, 10];

// A record for reading and copying, and the room in the lent list and in the lent buffer.
#[derive(Clone, Copy)]
pub struct RecordCase {
    pub n: u16,
    pub version: u8,
    // how many bytes there are
    pub length: usize,
    // a touch, and the sixteen bits of its x and of the next one's
    pub touch: u8,
    pub x: u16,
    pub list: u8,
    pub buffer: usize,
}

// A list for writing, and the room in the lent buffer.
#[derive(Clone, Copy)]
pub struct ListCase {
    pub numbers: u8,
    // where x stands, and again as the third number after it; all others are 0
    pub place: u8,
    pub x: i32,
    pub room: usize,
}

impl fmt::Display for RecordCase {
    fn fmt<W: fmt::Write>(&self, f: &mut fmt::Formatter<W>) -> fmt::Result {
        write!(f, "{} {} {} ", self.n, self.version, self.length)?;
        write!(f, "{} {} ", self.touch, self.x)?;
        write!(f, "{} {}", self.list, self.buffer)
    }
}

impl fmt::Display for ListCase {
    fn fmt<W: fmt::Write>(&self, f: &mut fmt::Formatter<W>) -> fmt::Result {
        write!(
            f,
            "{} {} {} {}",
            self.numbers, self.place, self.room, self.x
        )
    }
}

// Records of one touch with room just enough, of four with more, of 64, of 65, and the longest that n can say.
const ONE: RecordCase = RecordCase {
    n: 7,
    version: 1,
    length: 9,
    touch: 0,
    x: 0,
    list: 3,
    buffer: 9,
};

const FOUR: RecordCase = RecordCase {
    n: 25,
    version: 1,
    length: 27,
    touch: 0,
    x: 0,
    list: 14,
    buffer: 29,
};

const MOST: RecordCase = RecordCase {
    n: 385,
    version: 1,
    length: 387,
    touch: 63,
    x: 0,
    list: 192,
    buffer: 387,
};

const TOO_MANY: RecordCase = RecordCase {
    n: 391,
    version: 1,
    length: 393,
    touch: 0,
    x: 0,
    list: 199,
    buffer: 399,
};

const LONGEST: RecordCase = RecordCase {
    n: 65535,
    version: 1,
    length: 65537,
    touch: 0,
    x: 0,
    list: 3,
    buffer: 3,
};

pub const RECORDS: [RecordCase; 39] = [
    // accepted, with room just enough and with more
    RecordCase {
        n: 1,
        length: 3,
        list: 0,
        buffer: 3,
        ..ONE
    },
    RecordCase { x: 30000, ..ONE },
    RecordCase {
        x: 35536,
        list: 4,
        buffer: 10,
        ..ONE
    },
    RecordCase {
        touch: 3,
        x: 65535,
        list: 12,
        buffer: 27,
        ..FOUR
    },
    RecordCase {
        touch: 3,
        x: 30000,
        list: 199,
        buffer: 399,
        ..FOUR
    },
    RecordCase { x: 30000, ..MOST },
    // 8
    RecordCase {
        n: 0,
        version: 0,
        length: 0,
        ..FOUR
    },
    RecordCase {
        n: 0,
        version: 0,
        length: 1,
        ..FOUR
    },
    RecordCase {
        n: 0,
        version: 0,
        length: 2,
        ..FOUR
    },
    RecordCase { n: 24, ..FOUR },
    RecordCase { n: 26, ..FOUR },
    RecordCase { n: 27, ..FOUR },
    // 8 and 9
    RecordCase {
        n: 24,
        version: 2,
        ..FOUR
    },
    // 9
    RecordCase { version: 0, ..FOUR },
    RecordCase { version: 2, ..FOUR },
    RecordCase {
        version: 255,
        ..FOUR
    },
    // 9 and 10
    RecordCase {
        n: 26,
        version: 2,
        length: 28,
        ..FOUR
    },
    // 10
    RecordCase {
        n: 2,
        length: 4,
        ..FOUR
    },
    RecordCase {
        n: 6,
        length: 8,
        ..FOUR
    },
    RecordCase {
        n: 26,
        length: 28,
        ..FOUR
    },
    // 10 and 2
    RecordCase {
        n: 392,
        length: 394,
        ..TOO_MANY
    },
    // 2
    TOO_MANY,
    // 2 and 3
    RecordCase {
        x: 30001,
        ..TOO_MANY
    },
    // 3
    RecordCase {
        touch: 3,
        x: 30001,
        ..FOUR
    },
    RecordCase {
        touch: 1,
        x: 35535,
        ..FOUR
    },
    RecordCase {
        touch: 2,
        x: 32768,
        ..FOUR
    },
    RecordCase {
        n: 7,
        length: 9,
        x: 32767,
        ..FOUR
    },
    RecordCase {
        x: 30001,
        list: 199,
        buffer: 399,
        ..MOST
    },
    // 3, and 11 or 12
    RecordCase {
        touch: 1,
        x: 30001,
        list: 11,
        buffer: 26,
        ..FOUR
    },
    // 11 or 12, one short and more
    RecordCase {
        x: 5,
        list: 2,
        buffer: 8,
        ..ONE
    },
    RecordCase {
        touch: 3,
        x: 5,
        list: 11,
        buffer: 26,
        ..FOUR
    },
    RecordCase {
        touch: 0,
        x: 5,
        list: 191,
        buffer: 386,
        ..MOST
    },
    RecordCase {
        touch: 3,
        x: 5,
        list: 0,
        buffer: 0,
        ..FOUR
    },
    RecordCase {
        n: 1,
        length: 3,
        list: 0,
        buffer: 2,
        ..ONE
    },
    // as long as n can say
    LONGEST,
    RecordCase {
        version: 2,
        ..LONGEST
    },
    RecordCase {
        n: 65534,
        length: 65536,
        ..LONGEST
    },
    RecordCase {
        n: 65533,
        length: 65535,
        ..LONGEST
    },
    RecordCase {
        n: 65533,
        version: 2,
        length: 65535,
        ..LONGEST
    },
];

// Four touches in one place, with more room than they need.
const ZEROS: ListCase = ListCase {
    numbers: 12,
    place: 0,
    x: 0,
    room: 399,
};

pub const LISTS: [ListCase; 20] = [
    // accepted, with room just enough and with more
    ListCase {
        numbers: 0,
        room: 3,
        ..ZEROS
    },
    ListCase {
        numbers: 3,
        room: 9,
        x: 30000,
        ..ZEROS
    },
    ListCase {
        numbers: 3,
        place: 2,
        room: 10,
        x: -30000,
        ..ZEROS
    },
    ListCase {
        place: 11,
        x: -1,
        ..ZEROS
    },
    ListCase {
        numbers: 192,
        place: 191,
        room: 387,
        x: 30000,
        ..ZEROS
    },
    // 1
    ListCase {
        numbers: 1,
        ..ZEROS
    },
    ListCase {
        numbers: 191,
        ..ZEROS
    },
    // 1 and 2
    ListCase {
        numbers: 196,
        ..ZEROS
    },
    // 2
    ListCase {
        numbers: 195,
        ..ZEROS
    },
    // 2 and 3
    ListCase {
        numbers: 195,
        x: 30001,
        ..ZEROS
    },
    // 3
    ListCase {
        place: 11,
        x: 30001,
        ..ZEROS
    },
    ListCase { x: -30001, ..ZEROS },
    ListCase {
        place: 4,
        x: -32768,
        ..ZEROS
    },
    ListCase {
        numbers: 192,
        place: 191,
        x: 2147483647,
        ..ZEROS
    },
    // 3 and 12
    ListCase {
        place: 8,
        room: 26,
        x: 30001,
        ..ZEROS
    },
    // 12, one short and more
    ListCase {
        numbers: 0,
        room: 2,
        ..ZEROS
    },
    ListCase {
        numbers: 3,
        room: 8,
        x: 1,
        ..ZEROS
    },
    ListCase {
        room: 26,
        x: 1,
        ..ZEROS
    },
    ListCase {
        numbers: 192,
        room: 386,
        x: 1,
        ..ZEROS
    },
    ListCase {
        room: 0,
        x: 1,
        ..ZEROS
    },
];
