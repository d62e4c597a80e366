// LEB128 numbers, as DWARF has them, of at most ten bytes.
ghost use Rattle.std.specs.Prelude.{◌≡◌, ◌<◌, ◌^◌, pos, negsuc};
ghost use Rattle.numbers.specs.Gathered.{gathered_at};
ghost use Rattle.numbers.specs.Leb128.{uleb_at, sleb_at};

// The unsigned number at a place, and the place behind it. Most have one byte, and nearly all of the others two.
#[tactic(auto, using(crate::proofs::leb128::Uleb::short_laws))]
pub fn read_uleb(s: &[u8], at: usize) -> Option<(u64, usize)>
    ensures { result ≡ uleb_at s.now at }
{
    if at < s.len() {
        let first = s[at];
        if first < 128 {
            return Some((u64::from(first), at + 1));
        }
        if at + 1 < s.len() {
            let second = s[at + 1];
            if second < 128 {
                let value = u64::from(first % 128) + u64::from(second) * 128;
                return Some((value, at + 2));
            }
        }
    }
    read_long(s, at)
}

// The unsigned number at a place, of any length.
#[tactic(auto, using(crate::proofs::leb128::Uleb::uleb_laws))]
fn read_long(s: &[u8], at: usize) -> Option<(u64, usize)>
    ensures { result ≡ uleb_at s.now at }
{
    let bytes = gather(s, at)?;
    match bytes {
        Gathered::Few {
            low,
            scale,
            last,
            next,
        } => Some((low + u64::from(last) * scale, next)),
        Gathered::Ten { low, last, next } => {
            if last < 2 {
                return Some((low + u64::from(last) * TENTH, next));
            }
            None
        }
    }
}

// The signed number at a place, and the place behind it.
#[tactic(auto, using(crate::proofs::leb128::Sleb::sleb_laws))]
pub fn read_sleb(s: &[u8], at: usize) -> Option<(i64, usize)>
    ensures { result ≡ sleb_at s.now at }
{
    match gather(s, at)? {
        Gathered::Few {
            low,
            scale,
            last,
            next,
        } => {
            if last < 64 {
                return Some((plus(low + u64::from(last) * scale), next));
            }
            // The number with each of its bits flipped, and flipped back.
            let flipped = u64::from(127 - last) * scale + (scale - 1 - low);
            Some((minus(flipped), next))
        }
        Gathered::Ten { low, last, next } => {
            if last == 0 {
                return Some((plus(low), next));
            }
            if last == 127 {
                return Some((minus(TENTH - 1 - low), next));
            }
            None
        }
    }
}

// What a tenth byte counts: 128^9.
const TENTH: u64 = 0x8000_0000_0000_0000;

// The bytes of a number: those before the last are worth `low`, and the last counts `scale` times;
// of ten bytes, TENTH times.
#[derive(Clone, Copy)]
enum Gathered {
    Few {
        low: u64,
        scale: u64,
        last: u8,
        next: usize,
    },
    Ten {
        low: u64,
        last: u8,
        next: usize,
    },
}

// The bytes of the number at a place, of either sign; none where the bytes, or ten of them, run out
// before the last.
fn gather(s: &[u8], from: usize) -> Option<Gathered>
    ensures { result ≡ gathered_at s.now from }
{
    let mut low: u64 = 0;
    let mut scale: u64 = 1;
    for at in from..s.len() {
        let byte = s[at];
        let next = at + 1;
        if byte < 128 {
            let last = byte;
            if scale == TENTH {
                return Some(Gathered::Ten { low, last, next });
            }
            return Some(Gathered::Few {
                low,
                scale,
                last,
                next,
            });
        }
        if scale == TENTH {
            return None;
        }
        low += u64::from(byte % 128) * scale;
        scale *= 128;
    }
    None
}

// The number x.
fn plus(x: u64) -> i64
    requires { x < 2 ^ 63 }
    ensures { result ≡ pos x }
{
    x as i64
}

// The number -1 - x.
fn minus(x: u64) -> i64
    requires { x < 2 ^ 63 }
    ensures { result ≡ negsuc x }
{
    -1 - (x as i64)
}
