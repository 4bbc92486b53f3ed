// Printing to standard output.
use std::io;
use touches::Refusal;

// The paper's numbers of an answer: refusal number and place, 0 for a success; then the count, 0 for a refusal.
pub fn answer(rt: &impl Print, call: &str, answer: Result<usize, Refusal>) -> io::Result<()> {
    match answer {
        Ok(count) => print!(rt; "\n  {call} 0 0 {count}, changed"),
        Err(refusal) => print!(rt;
            "\n  {call} {} {} 0, changed",
            refusal.number(),
            refusal.place().0
        ),
    }
}

// How many numbers of a table that was all 9 are not, and the first 30, each by the closure.
fn table<T: Copy, F: Fn(T) -> bool, S: Fn(T) -> io::Result<()>>(
    rt: &impl Print,
    items: &[T],
    is_blank: F,
    show: S,
) -> io::Result<()>
    requires { F.IsAlwaysCallable is_blank × S.IsAlwaysCallable show }
{
    let changed = items.iter().filter(|x| !is_blank(**x)).count();
    print!(rt; " {changed}:")?;
    for x in items.iter().take(30) {
        show(*x)?;
    }
    Ok(())
}

pub fn list(rt: &impl Print, list: &[i32]) -> io::Result<()> {
    table(rt, list, |x| x == 9, |x| print!(rt; " {x}"))
}

pub fn bytes(rt: &impl Print, bytes: &[u8]) -> io::Result<()> {
    table(rt, bytes, |b| b == 9, |b| print!(rt; " {b:02x}"))
}
