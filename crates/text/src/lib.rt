// Numbers and bytes as text in a lent table, from a place on. Each call gives the next place; where there is no room for
// all of its text it writes nothing and gives the same place: a place and no Option, and table and place apart, as `Put` has them, which
// the promises name.
#![tactic(auto)]

ghost use Rattle.text.specs.Decimal.{decimal, whole};
ghost use Rattle.text.specs.Room.{Put};

use itoa::Buffer;

pub fn put_bytes(text: &mut [u8], at: usize, new: &[u8]) -> usize
    ensures { Put at new.now text.old result text.new }
{
    if text.len() < at || text.len() - at < new.len() {
        return at;
    }
    let next = at + new.len();
    text[at..next].copy_from_slice(new);
    next
}

// Two functions, since `decimal` and `whole` are what the promises name; one over `itoa::Integer` could name std's text alone.
#[tactic(auto, using(crate::proofs::DecimalLaws::decimal_is))]
pub fn put_decimal(text: &mut [u8], at: usize, n: u64) -> usize
    ensures { Put at (decimal n) text.old result text.new }
{
    put_bytes(text, at, Buffer::new().format(n).as_bytes())
}

#[tactic(auto, using(crate::proofs::WholeLaws::whole_is))]
pub fn put_whole(text: &mut [u8], at: usize, z: i64) -> usize
    ensures { Put at (whole z) text.old result text.new }
{
    put_bytes(text, at, Buffer::new().format(z).as_bytes())
}
