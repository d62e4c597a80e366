// Parts of a lent slice.
ghost use Rattle.std.specs.Prelude.{◌≡◌};

// A part of a slice that a caller lends: where it begins, and how many bytes it has.
#[derive(Clone, Copy, Debug, PartialEq, Eq)]
pub struct Part {
    pub place: usize,
    pub length: usize,
}

impl Part {
    ghost use Rattle.numbers.specs.Parts.{part_at};

    // The part: the slice's own bytes, where they lie. It is empty where place and length do not lie in the slice.
    pub fn of(self, s: &[u8]) -> &[u8]
        ensures { (result.ref_ptr, result.now) ≡ part_at s.entry.ref_ptr s.now self.place self.length }
    {
        if s.len() < self.place || s.len() - self.place < self.length {
            return &s[..0];
        }
        &s[self.place..self.place + self.length]
    }
}
