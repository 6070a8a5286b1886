// Numbers as bytes, low byte first.
ghost use Rattle.std.specs.Prelude.{◌≡◌, ◌+◌, ◌*◌, take, drop, ◌^◌, ◌<◌, ◌≤◌, length};
ghost use Rattle.std.specs.Int.{w64, from_le_bytes};
ghost use Rattle.wire.specs.Layout.{little_endian, Holds};

use std::array;

// The number of eight bytes, of which each counts 256 times as much as the one before it.
fn join(low_first: [u8; 8]) -> u64
    ensures { result ≡ from_le_bytes w64 low_first }
{
    u64::from_le_bytes(low_first)
}

// The number that at most eight bytes hold.
fn read_number(part: &[u8]) -> u64
    requires { length part.now ≤ 8 }
    ensures bytes { part.now ≡ little_endian (length part.now) result }
    ensures fits { result < 256 ^ length part.now }
{
    // std makes a number of just eight bytes
    let mut low_first = [0; 8];
    low_first[..part.len()].copy_from_slice(part);
    join(low_first)
}

// Writes the low bytes of a number, as many as are lent.
pub fn write_number(n: u64, part: &mut [u8])
    requires { length part.old ≤ 8 }
    ensures { part.new ≡ little_endian (length part.old) n }
{
    let len = part.len();
    part.copy_from_slice(&n.to_le_bytes()[..len]);
}

// The numbers, N of W bytes each, that a part of a row holds; None where it is not as long as they are.
pub fn read_numbers<const W: usize, const N: usize>(part: &[u8]) -> Option<[u64; N]>
    requires room { W ≤ 8 }
    requires few { N ≤ 6 }
    ensures { Holds W N part.now result }
{
    if part.len() != W * N {
        return None;
    }
    Some(array::from_fn(
        |i| -> u64
            requires room { W ≤ 8 }
            requires within { W * i + W ≤ length part.now }
            ensures bytes { take W (drop (W * i) part.exit.now) ≡ little_endian W result }
            ensures fits { result < 256 ^ W }
        { read_number(&part[W * i..W * i + W]) },
    ))
}
