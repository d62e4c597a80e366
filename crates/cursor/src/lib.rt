// Where a walk over an opcode stream stands: in the stream, in a segment and in a repeat. What moves
// it is the same in every kind of stream, whatever else the operations set.

#![tactic(auto)]

ghost use Rattle.std.specs.Prelude.{◌≡◌, ◌*◌};
ghost use Rattle.cursor.specs.Cursor.{is_pointer_size, at_start, behind_place, start_of, standing_of, moved_of};
ghost use Rattle.cursor.specs.Motion.{turn_of};

use refusal::Refusal;

// What an operation does to the place, or says. A repeat has a count of places, and what each of them
// adds to the offset beside the pointer size.
#[derive(Clone, Copy, Debug, PartialEq, Eq)]
pub enum Motion {
    Stays,
    Adds(u64),
    Seeks(u64),
    Restarts,
    Repeats(u64, u64),
    Ends,
    Refuses(Refusal),
}

// What that comes to at an offset. Where places are due: how many behind the first, and how far each is
// from the one before it.
// (A `Result` round the other cases would be no plainer: who asks tells all of them apart in one match.)
#[derive(Clone, Copy, Debug, PartialEq, Eq)]
pub enum Turn {
    On(u64),
    Anew,
    Due(u64, u64),
    End,
    Refused(Refusal),
}

#[derive(Clone, Copy, Debug, PartialEq, Eq)]
pub struct Cursor {
    pub at: usize,
    pub remaining: u64,
    pub advance: u64,
    pub offset: u64,
    pub size: u8,
    pub ended: bool,
}

// What a call has to do. A place that is due comes with the cursor behind it.
#[derive(Clone, Copy, Debug, PartialEq, Eq)]
pub enum Standing {
    OutOfRange,
    Ended,
    Due(Cursor),
    Reading,
}

// What an operation makes of the cursor. A place that is due comes with the cursor behind it.
// (No `Result` round the others, as in `Turn`.)
#[derive(Clone, Copy, Debug, PartialEq, Eq)]
pub enum Moved {
    On(Cursor),
    Due(Cursor),
    End(Cursor),
    Refused(Refusal),
}

impl Motion {
    // The turn of a stream at a pointer size and an offset.
    #[tactic(auto, unfolding(crate::specs::Motion::turn_of))]
    pub fn turned(self, size: u8, offset: u64) -> Turn
        ensures { result ≡ turn_of size offset self }
    {
        match self {
            Motion::Stays => Turn::On(offset),
            Motion::Adds(n) => Turn::On(offset.wrapping_add(n)),
            Motion::Seeks(to) => Turn::On(to),
            Motion::Restarts => Turn::Anew,
            Motion::Repeats(count, addition) => {
                if count == 0 {
                    return Turn::On(offset);
                }
                let advance = u64::from(size).wrapping_add(addition);
                Turn::Due(count - 1, advance)
            }
            Motion::Ends => Turn::End,
            Motion::Refuses(e) => Turn::Refused(e),
        }
    }
}

impl Cursor {
    // The cursor at the start of a stream of a pointer size.
    #[tactic(auto, unfolding(crate::specs::Cursor::start_of))]
    pub fn start(size: u8) -> Result<Cursor, Refusal>
        ensures { result ≡ start_of size }
    {
        if !is_pointer_size(size) {
            return Err(Refusal::PointerSize);
        }
        Ok(Cursor::at_start(size))
    }

    fn at_start(size: u8) -> Cursor
        ensures { result ≡ at_start size }
    {
        Cursor {
            at: 0,
            remaining: 0,
            advance: 0,
            offset: 0,
            size,
            ended: false,
        }
    }

    // What a call has to do, given a stream of so many bytes.
    #[tactic(auto, unfolding(crate::specs::Cursor::standing_of))]
    pub fn standing(self, len: usize) -> Standing
        ensures { result ≡ standing_of self len }
    {
        if len < self.at || !is_pointer_size(self.size) {
            return Standing::OutOfRange;
        }
        if self.ended {
            return Standing::Ended;
        }
        if self.remaining == 0 {
            return Standing::Reading;
        }
        let left = self.remaining - 1;
        Standing::Due(self.behind_place(left, self.advance))
    }

    // What an operation makes of the cursor. The place behind the operation is `next`.
    #[tactic(auto, unfolding(crate::specs::Cursor::moved_by))]
    pub fn moved(self, next: usize, motion: Motion) -> Moved
        ensures { result ≡ moved_of self next motion }
    {
        let c = Cursor { at: next, ..self };
        match motion.turned(self.size, self.offset) {
            Turn::On(offset) => Moved::On(Cursor { offset, ..c }),
            Turn::Anew => Moved::On(Cursor {
                at: next,
                ..Cursor::at_start(self.size)
            }),
            Turn::Due(left, advance) => Moved::Due(c.behind_place(left, advance)),
            Turn::End => Moved::End(c),
            Turn::Refused(e) => Moved::Refused(e),
        }
    }

    // The cursor behind a place at its offset, with so many left.
    fn behind_place(self, left: u64, advance: u64) -> Cursor
        ensures { result ≡ behind_place self left advance }
    {
        Cursor {
            remaining: left,
            advance,
            offset: self.offset.wrapping_add(advance),
            ..self
        }
    }
}

// So many pointers, in bytes.
pub fn scaled(count: u8, size: u8) -> u64
    ensures { result ≡ count * size }
{
    u64::from(count) * u64::from(size)
}

fn is_pointer_size(size: u8) -> bool
    ensures { result ≡ is_pointer_size size }
{
    size == 4 || size == 8
}
