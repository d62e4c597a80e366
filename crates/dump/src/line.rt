// What is printed is gathered in a buffer. It is written where it is full, and at the end.
ghost use Rattle.std.specs.Prelude.{◌≡◌, ◌+◌, ◌-◌, ◌^◌, ◌<◌, ◌≤◌, OnOk, drop, length};
ghost use Rattle.dump.specs.Digits.{ascii_digit, last_digits};

use std::io::{Print, Result, Stdout, Write};

const ROOM: usize = 4096;

// The buffer, how many bytes of it wait to be written, and where they are written to. (An array with its length beside
// it: the program has no heap.)
#[derive(Drop)]
pub(crate) struct Lines {
    room: [u8; ROOM],
    used: usize,
    to: Stdout,
    ghost within: { used ≤ 4096 },
}

impl Lines {
    pub(crate) fn start(to: Stdout) -> Lines {
        Lines {
            room: [0; ROOM],
            used: 0,
            to,
        }
    }

    // The buffer is written, and is empty.
    fn empty(&mut self) -> Result<()>
        ensures { OnOk result (self.new.used ≡ 0) }
    {
        Print::write_all(&self.to, &self.room[..self.used])?;
        self.used = 0;
        Ok(())
    }

    // Bytes for which there is room.
    #[inline(always)]
    fn put(&mut self, text: &[u8])
        requires { self.old.used + length text.now ≤ 4096 }
    {
        let end = self.used + text.len();
        self.room[self.used..end].copy_from_slice(text);
        self.used = end;
    }

    // Bytes for which there is no room: some of them fill the buffer, and the others follow when it is written.
    fn spill(&mut self, text: &[u8]) -> Result<()> {
        let (now, later) = text.split_at(text.len().min(ROOM - self.used));
        self.put(now);
        for part in later.chunks(ROOM) {
            self.empty()?;
            self.put(part);
        }
        Ok(())
    }

    // A number behind its label, to the right of a column.
    #[inline(always)]
    pub(crate) fn decimal(&mut self, label: &str, width: usize, n: u64) -> Result<()> {
        let mut digits = [b' '; DIGITS];
        let at = write_digits(n, 10, 1, &mut digits);
        self.column(label, width, &digits, at)
    }

    // The same with its sign, where it is negative. (There is a blank before it: no such number has twenty digits.)
    #[inline(always)]
    pub(crate) fn signed(&mut self, label: &str, width: usize, n: i64) -> Result<()> {
        let mut digits = [b' '; DIGITS];
        let mut at = write_digits(n.unsigned_abs(), 10, 1, &mut digits);
        if n < 0 && 0 < at {
            at -= 1;
            digits[at] = b'-';
        }
        self.column(label, width, &digits, at)
    }

    // In hexadecimal digits, with zeros in front, up to a width.
    #[inline(always)]
    pub(crate) fn hex(&mut self, label: &str, width: usize, n: u64) -> Result<()> {
        let mut digits = [b' '; DIGITS];
        let at = write_digits(n, 16, width, &mut digits);
        self.column(label, width, &digits, at)
    }

    // What stands from a place on behind a label, and the blanks before it that fill a column.
    #[inline(always)]
    fn column(
        &mut self,
        label: &str,
        width: usize,
        digits: &[u8; DIGITS],
        at: usize,
    ) -> Result<()> {
        self.write_all(label.as_bytes())?;
        self.write_all(&digits[at.min(DIGITS.saturating_sub(width))..])
    }

    // A name behind its label, in quotes. Bytes outside printable ASCII are escaped.
    pub(crate) fn quoted(&mut self, label: &str, name: &[u8]) -> Result<()> {
        self.write_all(label.as_bytes())?;
        self.write_all(b"\"")?;
        for part in name.chunks(16) {
            if part.iter().all(|b| is_plain(*b)) {
                self.write_all(part)?;
            } else {
                self.escaped(part)?;
            }
        }
        self.write_all(b"\"")
    }

    // A part of a name, of which some bytes are escaped. It is put together in a room of its own, with a backslash
    // wherever nothing is put. (In the buffer, two or four bytes at a time, it took up to four times as long.)
    fn escaped(&mut self, part: &[u8]) -> Result<()>
        requires { length part.now ≤ 16 }
    {
        let mut text = [b'\\'; 64];
        let mut n = 0;
        for (i, b) in part.iter().enumerate() {
            match *b {
                b'"' | b'\\' => {
                    text[n + 1] = *b;
                    n += 2;
                }
                b' '..=b'~' => {
                    text[n] = *b;
                    n += 1;
                }
                _ => {
                    text[n + 1] = b'x';
                    text[n + 2] = digit(u64::from(b / 16));
                    text[n + 3] = digit(u64::from(b % 16));
                    n += 4;
                }
            }
        }
        self.write_all(&text[..n])
    }

    // The end of a line: an addend and a name.
    pub(crate) fn symbol(&mut self, addend: i64, name: &[u8]) -> Result<()> {
        self.signed("  addend ", 20, addend)?;
        self.quoted("  name ", name)?;
        self.write_all(b"\n")
    }
}

impl Write for Lines {
    fn write(&mut self, text: &[u8]) -> Result<usize> {
        if self.used == ROOM {
            self.empty()?;
        }
        let rest = &mut self.room[self.used..];
        let n = text.len().min(rest.len());
        rest[..n].copy_from_slice(&text[..n]);
        self.used += n;
        Ok(n)
    }

    // What there is room for is copied at once: item by item, most of a list's time goes here.
    #[inline(always)]
    fn write_all(&mut self, text: &[u8]) -> Result<()> {
        if text.len() <= ROOM - self.used {
            self.put(text);
            return Ok(());
        }
        self.spill(text)
    }

    fn flush(&mut self) -> Result<()> {
        self.empty()
    }
}

// Whether a byte stands for itself in quotes.
fn is_plain(b: u8) -> bool {
    matches!(b, b' '..=b'~') && b != b'"' && b != b'\\'
}

// As many digits as the largest number has.
const DIGITS: usize = 20;

// Puts the digits of a number in a base to the end of the room, with zeros in front up to a width, and tells where
// they begin.
fn write_digits(n: u64, base: u64, width: usize, room: &mut [u8; DIGITS]) -> usize
    requires low { 10 ≤ base }
    requires high { base ≤ 16 }
    ensures within { result ≤ 20 }
    ensures digits { drop result room.new ≡ last_digits base (20 - result) n }
    ensures whole { n < base ^ (20 - result) }
    ensures padded { width ≤ 20 → width ≤ 20 - result }
    ensures shortest { width < 20 - result → base ^ (20 - result - 1) ≤ n }
{
    let mut at = DIGITS;
    let mut rest = n;
    while 0 < at && (0 < rest || DIGITS - at < width) {
        at -= 1;
        room[at] = digit(rest % base);
        rest /= base;
    }
    at
}

fn digit(d: u64) -> u8
    requires { d < 16 }
    ensures { result ≡ ascii_digit d }
{
    if d < 10 {
        b'0' + d as u8
    } else {
        b'a' - 10 + d as u8
    }
}
