// Little-endian fields: the number, and the place behind it.
ghost use Rattle.std.specs.Prelude.{◌≡◌, ◌≤◌};
ghost use Rattle.numbers.specs.LittleEndian.{field_at};

// The field of two bytes at a place.
pub fn read_u16(s: &[u8], at: usize) -> Option<(u64, usize)>
    ensures { result ≡ field_at 2 s.now at }
{
    read::<2>(s, at)
}

// The field of four bytes at a place.
pub fn read_u32(s: &[u8], at: usize) -> Option<(u64, usize)>
    ensures { result ≡ field_at 4 s.now at }
{
    read::<4>(s, at)
}

// The field of eight bytes at a place.
pub fn read_u64(s: &[u8], at: usize) -> Option<(u64, usize)>
    ensures { result ≡ field_at 8 s.now at }
{
    read::<8>(s, at)
}

// The field of so many bytes at a place: the lowest byte comes first.
fn read<const N: usize>(s: &[u8], at: usize) -> Option<(u64, usize)>
    requires { N ≤ 8 }
    ensures { result ≡ field_at N s.now at }
{
    if s.len() < at {
        return None;
    }
    if s.len() - at < N {
        return None;
    }
    let mut value: u64 = 0;
    for i in 0..N {
        value = value * 256 + u64::from(s[at + (N - 1 - i)]);
    }
    Some((value, at + N))
}
