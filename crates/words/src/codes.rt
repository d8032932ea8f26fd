// Words of ten six-bit codes, the first code highest (RULES, "Text").
ghost use Rattle.std.specs.Prelude.{◌≡◌, ◌^◌, ltb, if◌then◌else◌};

// one more than the largest code, and how many codes a word holds
pub const BASE: u64 = 0o100;

pub const TEN: usize = 10;

// the place value of a word's first code
pub const TOP: u64 = 0o1000000000000000000;

// how many bits a code has
pub const BITS: usize = 6;

pub fn wide(x: u8) -> u64
    ensures { result ≡ x }
{
    u64::from(x)
}

// The place value of a code that has k others behind it in its word; 0 where no word holds so many.
pub fn power(k: usize) -> u64
    ensures { result ≡ (if ltb k 10 then 64 ^ k else 0) }
{
    if TEN <= k {
        return 0;
    }
    1 << (BITS * k)
}
