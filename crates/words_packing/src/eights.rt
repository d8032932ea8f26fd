// Eight bytes as a number: lowest first for C, and highest first when packed.
ghost use Rattle.std.specs.Prelude.{◌≡◌, ◌+◌, ◌≤◌, length, take, drop};
ghost use Rattle.words_packing.specs.Pack.{bytes_of, number_of, low_bytes, low_number};

// the bytes of a word for C, and of an odd last word packed
pub(crate) const EIGHT: usize = 8;

// The eight bytes from a place.
pub(crate) fn eight(bytes: &[u8], at: usize) -> [u8; EIGHT]
    requires { at + 8 ≤ length bytes.now }
    ensures { result ≡ take 8 (drop at bytes.now) }
{
    [
        bytes[at],
        bytes[at + 1],
        bytes[at + 2],
        bytes[at + 3],
        bytes[at + 4],
        bytes[at + 5],
        bytes[at + 6],
        bytes[at + 7],
    ]
}

// The number that eight bytes write, lowest first.
pub(crate) fn low(bytes: [u8; EIGHT]) -> u64
    ensures { result ≡ low_number bytes }
{
    u64::from_le_bytes(bytes)
}

// The number that they write, highest first.
pub(crate) fn high(bytes: [u8; EIGHT]) -> u64
    ensures { result ≡ number_of 0 bytes }
{
    u64::from_be_bytes(bytes)
}

// The bytes of a number, lowest first.
pub(crate) fn put_low(out: &mut [u8], w: u64)
    requires { length out.old ≡ 8 }
    ensures { out.new ≡ low_bytes 8 w }
{
    out.copy_from_slice(&w.to_le_bytes());
}

// The bytes of a number, highest first.
pub(crate) fn put_high(out: &mut [u8], w: u64)
    requires { length out.old ≡ 8 }
    ensures { out.new ≡ bytes_of 8 w }
{
    out.copy_from_slice(&w.to_be_bytes());
}
