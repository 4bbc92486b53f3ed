// Lists the record of each file that an argument names, under the file's name.
#![tactic(auto)]

use std::{env, fs, io};

fn one(rt: &HostRuntime, name: &str) -> io::Result<()> {
    println!(rt; "{name}")?;
    let Ok(mut file) = fs::open(rt, name) else {
        return println!(rt; "no such file");
    };
    lister::list_input(&mut file, &mut rt.stdout())
}

fn main(rt: HostRuntime) -> io::Result<()> {
    for name in env::args(&rt)?.skip(1) {
        one(&rt, name.as_str())?;
    }
    Ok(())
}
