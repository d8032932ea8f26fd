// What each byte of a space is before a call, and the sum over all of it after.
ghost use Rattle.std.specs.Prelude.{◌≡◌, ℕ, ◌/◌, ◌%◌, ◌<◌, List, [], ◌∷◌, length, replicate};
ghost use Rattle.std.specs.List.{flat_map};
ghost use Rattle.cases_sums.specs.Space.{mixed, sum_from, sum_of, halves};

fn mix(sum: u64, x: u64) -> u64
    requires sum_bound { sum < 4294967291 }
    requires x_bound { x < 4294967296 }
    ensures value { result ≡ mixed sum x }
    ensures upper_bound { result < 4294967291 }
{
    (sum * 65599 + x) % 4294967291
}

// An element of a space, which counts as one number or as more.
trait Summed: Copy {
    ghost numbers: { Self → List ℕ };

    // The sum with them mixed in.
    fn added(self, sum: u64) -> u64
        requires { sum < 4294967291 }
        ensures value { result ≡ sum_from sum (numbers self) }
        ensures upper_bound { result < 4294967291 };
}

impl Summed for u8 {
    ghost numbers = { λ b. b ∷ [] };

    #[tactic(auto, unfolding(crate::specs::Space::sum_from))]
    fn added(self, sum: u64) -> u64 {
        mix(sum, u64::from(self))
    }
}

// A word counts as its low 32 bits and then its high 32 bits.
impl Summed for u64 {
    ghost numbers = { λ w. w % 4294967296 ∷ w / 4294967296 ∷ [] };

    #[tactic(auto, unfolding(crate::specs::Space::sum_from))]
    fn added(self, sum: u64) -> u64 {
        mix(mix(sum, self % 4294967296), self / 4294967296)
    }
}

fn sum_all<T: Summed>(s: &[T]) -> u64
    ensures { result ≡ sum_of (flat_map T.numbers s.now) }
{
    let mut sum = 0;
    for x in s {
        sum = x.added(sum);
    }
    sum
}

pub fn sum_bytes(s: &[u8]) -> u64
    ensures { result ≡ sum_of s.now }
{
    sum_all(s)
}

pub fn sum_words(s: &[u64]) -> u64
    ensures { result ≡ sum_of (halves s.now) }
{
    sum_all(s)
}

pub fn fill_bytes(s: &mut [u8])
    ensures { s.new ≡ replicate (length s.old) 0x5A }
{
    s.fill(0x5A);
}

pub fn fill_words(s: &mut [u64])
    ensures { s.new ≡ replicate (length s.old) 0x5A5A5A5A5A5A5A5A }
{
    s.fill(0x5A5A5A5A5A5A5A5A);
}
