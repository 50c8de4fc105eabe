// METHOD 9: the printing program's input and output around the text of print_tables. What the system reads and writes is in no contract.
#![tactic(auto)]

ghost use Rattle.std.specs.Prelude.{◌≤◌, length};
ghost use Rattle.print_input.specs.Promises.{InputPrinted};

use std::io;
use std::io::{Eprint, Print, Read};

// Bytes of the longest desk file.
const LONGEST_FILE: usize = 4 + 6 * refusals::MOST_MONTHS;

// So many bytes of an input are read, one more than the longest desk file has: they decide (proofs/LongFiles.antt, read_enough).
const MOST_READ: usize = LONGEST_FILE + 1;

// The first bytes of an input, which are all of them where the array is not full.
#[derive(Drop)]
struct Input {
    bytes: [u8; MOST_READ],
    count: usize,
    ghost inside: { count ≤ length bytes },
}

impl Input {
    // Reads until the array is full or the input ends. No `for`: how far a step goes is the reader's answer.
    fn read<F: Read>(from: &mut F) -> io::Result<Input> {
        let mut bytes = [0; MOST_READ];
        let mut count = 0;
        while count < bytes.len() {
            let more = from.read(&mut bytes[count..])?;
            if more == 0 {
                break;
            }
            count += more;
        }
        Ok(Input { bytes, count })
    }

    // The text of the whole input, however long that is.
    fn put(&self, out: &mut [u8; print_lines::TEXT_ROOM]) -> usize
        ensures { InputPrinted self.now.bytes self.now.count out.old result out.new }
    {
        print_tables::put_file(out, &self.bytes[..self.count])
    }
}

// The system's words for an error, without its number.
fn words(text: &str) -> &str {
    text.split_once(" (os error ")
        .map_or(text, |(words, _)| words)
}

// Tells on standard error what failed and why. Where that fails too, nothing is told.
pub fn fail<R: Eprint + AllocGlobal>(rt: &R, what: &str, error: io::Error) {
    let Ok(text) = format!(in rt.alloc(); "{error}") else {
        return;
    };
    let _ = eprintln!(rt; "{what}: {}", words(text.as_str()));
}

// Prints the text of the desk file in standard input.
pub fn run(rt: &HostRuntime) {
    run_on(rt, &mut rt.stdin(), "standard input");
}

// The same for any open file, and what it is called where reading fails. A failure is told on standard error, and no refusal is printed
// for it.
pub fn run_on<R: Print + Eprint + AllocGlobal, F: Read>(rt: &R, from: &mut F, name: &str) {
    let mut out = [0u8; print_lines::TEXT_ROOM];
    match Input::read(from) {
        Ok(input) => {
            let end = input.put(&mut out);
            if let Err(error) = rt.write_all(&out[..end]) {
                fail(rt, "standard output", error);
            }
        }
        Err(error) => fail(rt, name, error),
    }
}
