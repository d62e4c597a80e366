// The walk over a rebase stream: a state goes in, and a place that the loader rebases, the end or a
// refusal comes out, with the next state.

#![tactic(auto)]

ghost use Rattle.std.specs.Prelude.{◌≡◌};
ghost use Rattle.listing.specs.Call.{begin};
ghost use Rattle.listing.specs.Machine.{◌and◌};
ghost use Rattle.rebase.specs.Rebases.{unset, rebases};
ghost use Rattle.runs.specs.Told.{start_told};

use cursor::Motion;
use listing::{Effect, Walk};
use operations::rebase_operation::RebaseOperation;
use refusal::Refusal;

// A place that the loader rebases: its segment, its offset there, and its type. A byte stands first: in
// a step's answer it lies where a refusal does, which is faster. (A type is a number: a stream can set any
// of sixteen, and the header has names for three.)
#[derive(Clone, Copy, Debug, PartialEq, Eq)]
pub struct Rebase {
    pub segment: u8,
    pub offset: u64,
    pub kind: u8,
}

// What operations have set, but for the offset: a segment and a type, and whether each is set. Flag and
// value stand apart, as in the words of a state in C, where a value is kept with its flag off.
#[derive(Clone, Copy, Debug, PartialEq, Eq)]
pub struct Registers {
    pub segment: u8,
    pub kind: u8,
    pub segmented: bool,
    pub typed: bool,
}

pub type RebaseWalk = Walk<Registers>;

impl listing::Registers for Registers {
    type Operation = RebaseOperation;

    type Item = Rebase;

    ghost machine = { rebases };

    fn parse(s: &[u8], at: usize) -> Result<Option<(RebaseOperation, usize)>, Refusal> {
        RebaseOperation::parse(s, at)
    }

    fn effect(self, size: u8, op: RebaseOperation) -> Effect<Registers> {
        match op {
            RebaseOperation::Done => self.and(Motion::Ends),
            RebaseOperation::SetType { kind } => Registers {
                typed: true,
                kind,
                ..self
            }
            .and(Motion::Stays),
            RebaseOperation::SetSegmentAndOffset { index, offset } => Registers {
                segmented: true,
                segment: index,
                ..self
            }
            .and(Motion::Seeks(offset)),
            RebaseOperation::AddAddr { offset } => self.and(Motion::Adds(offset)),
            RebaseOperation::AddAddrScaled { count } => {
                self.and(Motion::Adds(cursor::scaled(count, size)))
            }
            RebaseOperation::DoRebaseTimes { count } => self.and(Motion::Repeats(count, 0)),
            RebaseOperation::DoRebaseAddAddr { offset } => self.and(Motion::Repeats(1, offset)),
            RebaseOperation::DoRebaseTimesSkipping { count, skip } => {
                self.and(Motion::Repeats(count, skip))
            }
        }
    }

    fn lack(self) -> Option<Refusal> {
        if !self.segmented {
            Some(Refusal::NoSegment)
        } else if !self.typed {
            Some(Refusal::NoType)
        } else {
            None
        }
    }

    fn item(self, offset: u64) -> Rebase {
        Rebase {
            segment: self.segment,
            offset,
            kind: self.kind,
        }
    }

    fn segment(self) -> u8 {
        self.segment
    }

    fn kind(self) -> u8 {
        self.kind
    }
}

impl Registers {
    // (Bind streams have the same: as a function of the trait, which `effect` calls, it is not covered by
    // the prover.)
    fn and(self, motion: Motion) -> Effect<Registers>
        ensures { result ≡ (self and motion) }
    {
        Effect {
            motion,
            registers: self,
        }
    }
}

// How a rebase walk starts: a trait, since a type of another crate takes no functions beside it.
pub trait RebaseStarts {
    // A walk over a stream of a pointer size.
    fn start(size: u8) -> Result<RebaseWalk, Refusal>
        ensures { start_told result ≡ begin size unset };
}

impl RebaseStarts for RebaseWalk {
    fn start(size: u8) -> Result<RebaseWalk, Refusal> {
        let registers = Registers {
            segment: 0,
            kind: 0,
            segmented: false,
            typed: false,
        };
        Walk::begin(size, registers)
    }
}
