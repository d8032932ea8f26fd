// The parts of the arrays that are lent to a call.
ghost use Rattle.std.specs.Prelude.{◌≡◌, ℕ, List, ◌==◌, ◌/◌, ◌%◌, Some, None, length, replicate, if◌then◌else◌};
ghost use Rattle.cases_sums.specs.Space.{sum_of, halves};
ghost use Rattle.cases.specs.Counts.{IsPrefixLen};

// What an array holds, words or bytes: what each is ahead of a call, and the sum over them after it.
pub trait Item: Copy {
    ghost filled: { Self };

    ghost sum_all: { List Self → ℕ };

    fn fill(space: &mut [Self])
        ensures { space.new ≡ replicate (length space.old) filled };

    fn sum(space: &[Self]) -> u64
        ensures { result ≡ sum_all space.now };
}

impl Item for u8 {
    ghost filled = { 0x5A };

    ghost sum_all = { sum_of };

    fn fill(space: &mut [u8]) {
        cases_sums::fill_bytes(space)
    }

    fn sum(space: &[u8]) -> u64 {
        cases_sums::sum_bytes(space)
    }
}

impl Item for u64 {
    ghost filled = { 0x5A5A5A5A5A5A5A5A };

    ghost sum_all = { λ s. sum_of (halves s) };

    fn fill(space: &mut [u64]) {
        cases_sums::fill_words(space)
    }

    fn sum(space: &[u64]) -> u64 {
        cases_sums::sum_words(space)
    }
}

// n, or all of `s` where that is shorter. The contract is what `&s[..r]` asks, so that whoever lends it needs no proof file.
pub fn front<T>(n: usize, s: &[T]) -> usize
    ensures { IsPrefixLen result s.now }
{
    n.min(s.len())
}

// How many words n bytes are, where they are whole words.
pub fn whole_words(n: usize) -> Option<usize>
    ensures { result ≡ (if n % 8 == 0 then Some (n / 8) else None) }
{
    if n % 8 == 0 { Some(n / 8) } else { None }
}
