// Hand cases of the record calls. Each line ends in the call's refusal number, place and count, and its lent table.
#![tactic(auto)]

mod cases;
mod show;

use cases::{LISTS, ListCase, RECORD_T, RECORDS, RecordCase, T};
use std::io;
use touches::Refusal;

// Lent tables are all 9 before a call.
const BLANK_LIST: [i32; 256] = [9; 256];

const BLANK_BUFFER: [u8; 400] = [9; 400];

fn bytes_of(case: RecordCase) -> [u8; 65537] {
    let at = 3 + usize::from(case.touch) * 6;
    let x = case.x.to_be_bytes();
    let mut bytes = [0; 65537];
    bytes[..2].copy_from_slice(&case.n.to_be_bytes());
    bytes[at..at + 2].copy_from_slice(&x);
    bytes[at + 6..at + 8].copy_from_slice(&x);
    bytes[2] = case.version;
    bytes
}

fn coords_of(case: ListCase) -> [i32; 259] {
    let at = usize::from(case.place);
    let mut coords = [0; 259];
    coords[at] = case.x;
    coords[at + 3] = case.x;
    coords
}

fn read_case(rt: &impl Print, bytes: &[u8], list: &mut [i32]) -> io::Result<()> {
    show::answer(rt, "read", records::read(bytes, list))?;
    show::list(rt, list)
}

// What writing or copying answered, and the buffer.
fn buffer_case(
    rt: &impl Print,
    call: &str,
    answer: Result<usize, Refusal>,
    buffer: &[u8],
) -> io::Result<()> {
    show::answer(rt, call, answer)?;
    show::bytes(rt, buffer)
}

// No case is longer than the arrays: `min` says so where the types don't.
fn record_case(rt: &impl Print, case: RecordCase) -> io::Result<()> {
    let bytes = bytes_of(case);
    let record = &bytes[..case.length.min(bytes.len())];
    let mut list = BLANK_LIST;
    let mut buffer = BLANK_BUFFER;
    let room = case.buffer.min(buffer.len());
    print!(rt; "record {case}")?;
    read_case(rt, record, &mut list[..usize::from(case.list)])?;
    let copied = records::copy(record, &mut buffer[..room]);
    buffer_case(rt, "copy", copied, &buffer[..room])?;
    println!(rt)
}

fn list_case(rt: &impl Print, case: ListCase) -> io::Result<()> {
    let coords = coords_of(case);
    let mut buffer = BLANK_BUFFER;
    let room = case.room.min(buffer.len());
    print!(rt; "list {case}")?;
    let written = records::write(&coords[..usize::from(case.numbers)], &mut buffer[..room]);
    buffer_case(rt, "write", written, &buffer[..room])?;
    println!(rt)
}

fn t_cases(rt: &impl Print) -> io::Result<()> {
    let mut list = [9; 14];
    let mut written = [9; 29];
    let mut copied = [9; 29];
    print!(rt; "T")?;
    read_case(rt, &RECORD_T, &mut list)?;
    let answer = records::write(&T, &mut written);
    buffer_case(rt, "write", answer, &written)?;
    let answer = records::copy(&RECORD_T, &mut copied);
    buffer_case(rt, "copy", answer, &copied)?;
    println!(rt)
}

fn main(rt: HostRuntime) -> io::Result<()> {
    t_cases(&rt)?;
    for case in RECORDS {
        record_case(&rt, case)?;
    }
    for case in LISTS {
        list_case(&rt, case)?;
    }
    Ok(())
}
