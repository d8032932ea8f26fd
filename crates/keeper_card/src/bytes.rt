// How many bytes a number takes.
ghost use Rattle.std.specs.Prelude.{◌≡◌, ◌+◌, ◌≤◌, length};
ghost use Rattle.words.specs.Names.{numeral};

// How many digits a number has.
pub(crate) fn digits(n: u64) -> usize
    ensures { (result ≤ 20) × (result ≡ length (numeral n)) }
{
    match n.checked_ilog10() {
        Some(tens) => tens as usize + 1,
        None => 1,
    }
}
