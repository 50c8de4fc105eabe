// Prints each desk file that an argument names, after a line with its name.
#![tactic(auto)]

use std::fs::File;
use std::io::Print;
use std::{env, io};

fn one(rt: &HostRuntime, path: &str) {
    match File::open(rt, path) {
        Ok(mut file) => {
            let _ = println!(rt; "{path}");
            print_input::run_on(rt, &mut file, path);
        }
        Err(error) => print_input::fail(rt, path, error),
    }
}

fn main(rt: HostRuntime) -> io::Result<()> {
    for path in env::args(&rt)?.skip(1) {
        one(&rt, path.as_str());
    }
    Ok(())
}
