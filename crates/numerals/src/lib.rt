// Numbers as they are written on a command line: decimal, or hexadecimal behind 0x.

#![tactic(auto)]

ghost use Rattle.std.specs.Prelude.{◌<◌, ◌≤◌, ◌≡◌};
ghost use Rattle.numerals.specs.Numerals.{digit_in, in_base, is_hexadecimal, numeral_of};

pub fn read(text: &[u8]) -> Option<u64>
    ensures { result ≡ numeral_of text.now }
{
    if is_hexadecimal(text) {
        return digits(&text[2..], 16);
    }
    if text.is_empty() {
        return None;
    }
    digits(text, 10)
}

fn is_hexadecimal(text: &[u8]) -> bool
    ensures { result ≡ is_hexadecimal text.now }
{
    matches!(text, [b'0', b'x', _, ..])
}

// In a base: digit by digit, what those before come to, times the base.
fn digits(text: &[u8], base: u64) -> Option<u64>
    requires { 0 < base }
    ensures { result ≡ in_base base text.now }
{
    let mut value: u64 = 0;
    for b in text {
        let d = digit(*b, base)?;
        value = value.checked_mul(base)?.checked_add(d)?;
    }
    Some(value)
}

fn digit(b: u8, base: u64) -> Option<u64>
    ensures { result ≡ digit_in base b }
{
    let d = match b {
        b'0'..=b'9' => u64::from(b - b'0'),
        b'A'..=b'F' => u64::from(b - b'A') + 10,
        b'a'..=b'f' => u64::from(b - b'a') + 10,
        _ => 16, // a digit of no base here
    };
    (d < base).then_some(d)
}
