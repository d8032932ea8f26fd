// What a case asks for.
use crate::answer::Unanswered;

#[derive(Clone, Copy, PartialEq, Eq)]
pub enum Op {
    Check,
    Run,
    Compile,
    Pack,
    Unpack,
    Compress,
    Expand,
    Line,
    Merge,
}

// The numbers of the cases' format.
impl TryFrom<u8> for Op {
    type Error = Unanswered;

    fn try_from(op: u8) -> Result<Op, Unanswered> {
        match op {
            1 => Ok(Op::Check),
            2 => Ok(Op::Run),
            3 => Ok(Op::Compile),
            4 => Ok(Op::Pack),
            5 => Ok(Op::Unpack),
            6 => Ok(Op::Compress),
            7 => Ok(Op::Expand),
            8 => Ok(Op::Line),
            9 => Ok(Op::Merge),
            _ => Err(Unanswered::NotCarried),
        }
    }
}
