// METHOD 8.5, reading, writing and moving a desk file for callers in other languages: an answer is a number, 0 for success, else the refusal's number.
// Crate `vepsjalm` exports these functions. (Numbers and lent places are the C interface: each function sets those of its own.)
#![tactic(auto)]

ghost use Rattle.desk_file.specs.WriteFile.{write_says};
ghost use Rattle.desk_numbers.specs.Promises.{SizeTold};

use refusals::Refusal;

mod columns;
mod plain;

pub use columns::{from_columns, read_columns, to_columns, write_columns};
pub use plain::{read, write};

// The answer of a writer, or of moving forward. The others have more values than a length, each in a place of its own: one generic function for all
// would take as many places and is no plainer.
fn told(answer: Result<usize, Refusal>, size: &mut usize, place: &mut usize) -> u8
    ensures { SizeTold (write_says answer) result size.new place.new }
{
    match answer {
        Ok(n) => {
            *size = n;
            *place = 0;
            0
        }
        Err(refusal) => {
            *size = 0;
            *place = refusals::place(refusal);
            refusals::number(refusal)
        }
    }
}
