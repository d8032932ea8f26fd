// Columns of a line, written one after the other.
ghost use Rattle.std.specs.Prelude.{◌≡◌, [], ◌∷◌, ◌++◌, ◌+◌, ◌≤◌, ◌<◌, length, take, drop, replicate};

// The space and a place in it, and the next place as the answer: a cursor that held both would have the same clauses.
pub(crate) fn put_column(b: u8, line: &mut [u8], at: usize) -> usize
    requires { at < length line.old }
    ensures value { result ≡ at + 1 }
    ensures line_after { take result line.new ≡ take at line.old ++ (b ∷ []) }
    ensures line_unchanged { drop result line.new ≡ drop result line.old }
{
    line[at] = b;
    at + 1
}

pub(crate) fn put_columns(b: u8, n: usize, line: &mut [u8], at: usize) -> usize
    requires { at + n ≤ length line.old }
    ensures value { result ≡ at + n }
    ensures line_after { take result line.new ≡ take at line.old ++ replicate n b }
    ensures line_unchanged { drop result line.new ≡ drop result line.old }
{
    line[at..at + n].fill(b);
    at + n
}
