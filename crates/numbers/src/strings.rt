// Strings that end in a NUL.
ghost use Rattle.std.specs.Prelude.{◌≡◌, ◌+◌, ◌≤◌, length};
ghost use Rattle.numbers.specs.Strings.{is_nul, string_at};
ghost use Rattle.numbers.specs.Passed.{Passed, nul_within};

use crate::parts::Part;

// The string at a place, without the NUL that ends it, and the place behind the NUL.
#[tactic(auto, using(crate::proofs::strings::Nuls::string_laws))]
pub fn read_string(s: &[u8], from: usize) -> Option<(Part, usize)>
    ensures { result ≡ string_at s.now from }
{
    for at in pass(s, from)..s.len() {
        if s[at] == 0 {
            let string = Part {
                place: from,
                length: at - from,
            };
            return Some((string, at + 1));
        }
    }
    None
}

// A place with no NUL before it, from here on: eight bytes are passed at a time.
#[tactic(auto, using(crate::proofs::strings::Nuls::eight_laws))]
fn pass(s: &[u8], from: usize) -> usize
    ensures { Passed is_nul s.now from result }
{
    if s.len() < 8 {
        return from;
    }
    let last = s.len() - 8;
    let mut at = from;
    // (A `while`: what is answered behind it is the place where it stopped.)
    while at <= last {
        if has_nul(s, at) {
            return at;
        }
        at += 8;
    }
    at
}

// Whether there is a NUL among eight bytes. They are joined by `|`, so that all eight are one test.
fn has_nul(s: &[u8], at: usize) -> bool
    requires { at + 8 ≤ length s.now }
    ensures { result ≡ nul_within 7 s.now at }
{
    (s[at] == 0)
        | (s[at + 1] == 0)
        | (s[at + 2] == 0)
        | (s[at + 3] == 0)
        | (s[at + 4] == 0)
        | (s[at + 5] == 0)
        | (s[at + 6] == 0)
        | (s[at + 7] == 0)
}
