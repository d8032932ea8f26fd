// The numbers of a case, little-endian: four bytes in its head, eight in an image.
ghost use Rattle.std.specs.Prelude.{◌≡◌, ◌+◌, ◌*◌, ◌≤◌};
ghost use Rattle.cases_sums.specs.Little.{four_at, head_of};

use crate::Head;

fn four_at(s: &[u8; 13], at: usize) -> usize
    requires { at ≤ 9 }
    ensures { result ≡ four_at s.now at }
{
    u32::from_le_bytes([s[at], s[at + 1], s[at + 2], s[at + 3]]) as usize
}

pub fn read_head(s: &[u8; 13]) -> Head
    ensures { result ≡ head_of s.now }
{
    Head {
        op: s[0],
        room: four_at(s, 1),
        first: four_at(s, 5),
        second: four_at(s, 9),
    }
}

pub fn word_of(s: &[u8; 8]) -> u64
    ensures { result ≡ four_at s.now 0 + 4294967296 * four_at s.now 4 }
{
    u64::from_le_bytes(*s)
}
