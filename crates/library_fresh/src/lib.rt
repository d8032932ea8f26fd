// The library that a creation run starts from, and the table's numbers of what writing it answers.
#![tactic(auto)]

ghost use Rattle.std.specs.Prelude.{◌≡◌};
ghost use Rattle.library_fresh.specs.Fresh.{begun_number, begun_value};

mod start;

pub use start::fresh;

// rows of the table
const DONE: u64 = 0;

const LONGER: u64 = 32;

// The table's number of what `fresh` answers; 0 where the library was written.
pub fn begun_number(b: Option<usize>) -> u64
    ensures { result ≡ begun_number b }
{
    match b {
        Some(_) => DONE,
        None => LONGER,
    }
}

// The words written, or 0.
pub fn begun_value(b: Option<usize>) -> u64
    ensures { result ≡ begun_value b }
{
    match b {
        Some(n) => n as u64,
        None => 0,
    }
}
