// A case's line.
use std::{fmt, io};

// The three numbers of the call, and the sum over its space.
#[derive(Clone, Copy, PartialEq, Eq)]
pub struct Numbers {
    pub number: u64,
    pub first: u64,
    pub second: u64,
    pub sum: u64,
}

// Why a case is not answered.
#[derive(Clone, Copy, PartialEq, Eq)]
pub enum Unanswered {
    // The program has no such op.
    NotCarried,
    // A blob or the room is larger than the program's arrays, or an image is no whole words.
    Beyond,
    // The input ended within the case.
    Truncated,
}

impl fmt::Display for Numbers {
    fn fmt<W: fmt::Write>(&self, f: &mut fmt::Formatter<W>) -> fmt::Result {
        write!(
            f,
            "{} {} {} {}",
            self.number, self.first, self.second, self.sum
        )
    }
}

impl fmt::Display for Unanswered {
    fn fmt<W: fmt::Write>(&self, f: &mut fmt::Formatter<W>) -> fmt::Result {
        match self {
            Unanswered::NotCarried => write!(f, "not carried"),
            Unanswered::Beyond => write!(f, "beyond the program's arrays"),
            Unanswered::Truncated => write!(f, "cut short by the end of the input"),
        }
    }
}

// Each line is made whole and then written, so that an answer takes one call of the system.
pub fn write(rt: &impl Print, op: u8, answer: Result<Numbers, Unanswered>) -> io::Result<()> {
    match answer {
        Ok(numbers) => println!(rt; "{numbers}"),
        Err(why) => println!(rt; "cases: op {op} {why}"),
    }
}
