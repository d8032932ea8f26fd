// The merge of two libraries, without its code: what it answers, and the numbers of that (RULES, "The merge").
#![tactic(auto)]

ghost use Rattle.std.specs.Prelude.{◌≡◌};
ghost use Rattle.merge_meaning.specs.Merge.{merged_number, merged_value, merged_which};

use library::Refusal;

// Why two libraries are not merged: the first is refused, or the second; a name stands at this word of the second that both have; a limit would be passed; or the
// space is too short.
#[derive(Clone, Copy, PartialEq, Eq)]
pub enum MergeRefused {
    First(Refusal),
    Second(Refusal),
    Shared(usize),
    Limit,
    Space,
}

// the rows, as numbers, which C is answered
const DONE: u64 = 0;

const LIMIT: u64 = 31;

const SPACE: u64 = 32;

const SHARED: u64 = 37;

// 0, or the row.
pub fn merged_number(r: Result<usize, MergeRefused>) -> u64
    ensures { result ≡ merged_number r }
{
    match r {
        Ok(_) => DONE,
        Err(MergeRefused::First(refusal)) => library::fault_number(refusal.fault),
        Err(MergeRefused::Second(refusal)) => library::fault_number(refusal.fault),
        Err(MergeRefused::Shared(_)) => SHARED,
        Err(MergeRefused::Limit) => LIMIT,
        Err(MergeRefused::Space) => SPACE,
    }
}

// The words written, or the place.
pub fn merged_value(r: Result<usize, MergeRefused>) -> u64
    ensures { result ≡ merged_value r }
{
    match r {
        Ok(words) => words as u64,
        Err(MergeRefused::First(refusal)) => refusal.place as u64,
        Err(MergeRefused::Second(refusal)) => refusal.place as u64,
        Err(MergeRefused::Shared(place)) => place as u64,
        Err(MergeRefused::Limit | MergeRefused::Space) => 0,
    }
}

// the library at fault, as a number, which C is answered
const NEITHER: u64 = 0;

const FIRST: u64 = 1;

const SECOND: u64 = 2;

// Which library is at fault: the first, the second, or neither.
pub fn merged_which(r: Result<usize, MergeRefused>) -> u64
    ensures { result ≡ merged_which r }
{
    match r {
        Err(MergeRefused::First(_)) => FIRST,
        Err(MergeRefused::Second(_)) => SECOND,
        Err(MergeRefused::Shared(_)) => SECOND,
        Ok(_) | Err(MergeRefused::Limit | MergeRefused::Space) => NEITHER,
    }
}
