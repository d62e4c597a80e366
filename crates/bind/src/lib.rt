// The walk over a bind stream: a state goes in, and a place that the loader binds to a symbol, the end
// or a refusal comes out, with the next state.

#![tactic(auto)]

ghost use Rattle.std.specs.Prelude.{◌≡◌, ℕ, ℤ, pos, neg_ℤ};
ghost use Rattle.listing.specs.Call.{begin};
ghost use Rattle.listing.specs.Machine.{◌and◌};
ghost use Rattle.numbers.specs.Parts.{part_at};
ghost use Rattle.bind.specs.Binds.{unset, plainly, weakly, lazily, done_effect, ordinal_effect, binds};
ghost use Rattle.runs.specs.Told.{start_told};

use cursor::Motion;
use listing::{Effect, Walk};
use numbers::parts::Part;
use operations::bind_operation::BindOperation;
use refusal::Refusal;

// A place that the loader binds: its segment, its offset there, its type, the library that the symbol
// is taken from, the part of the stream that is the symbol's name, its flags, and the addend. A byte
// stands first: in a step's answer it lies where a refusal does, which is faster. (A type is a number: a
// stream can set any of sixteen, and the header has names for three.)
#[derive(Clone, Copy, Debug, PartialEq, Eq)]
pub struct Bind {
    pub segment: u8,
    pub offset: u64,
    pub kind: u8,
    pub library: i32,
    pub name: Part,
    pub flags: u8,
    pub addend: i64,
}

// What operations have set, but for the offset; whether the walk is a lazy one; and whether segment,
// type, library (`sourced`) and symbol (`named`) are set. Flag and value stand apart, as in the words of
// a state in C, where a value is kept with its flag off.
#[derive(Clone, Copy, Debug, PartialEq, Eq)]
pub struct Registers {
    pub name: Part,
    pub addend: i64,
    pub library: i32,
    pub segment: u8,
    pub kind: u8,
    pub flags: u8,
    pub lazy: bool,
    pub segmented: bool,
    pub typed: bool,
    pub sourced: bool,
    pub named: bool,
}

pub type BindWalk = Walk<Registers>;

impl Bind {
    // The symbol's name: a part of the stream that is lent.
    pub fn name(self, s: &[u8]) -> &[u8]
        ensures { (result.ref_ptr, result.now) ≡ part_at s.entry.ref_ptr s.now self.name.place self.name.length }
    {
        self.name.of(s)
    }
}

impl listing::Registers for Registers {
    type Operation = BindOperation;

    type Item = Bind;

    ghost machine = { binds };

    fn parse(s: &[u8], at: usize) -> Result<Option<(BindOperation, usize)>, Refusal> {
        BindOperation::parse(s, at)
    }

    fn effect(self, size: u8, op: BindOperation) -> Effect<Registers> {
        match op {
            BindOperation::Done => self.done(),
            BindOperation::SetDylibOrdinal { ordinal } => self.set_ordinal(ordinal),
            BindOperation::SetDylibSpecial { ordinal } => Registers {
                sourced: true,
                library: ordinal,
                ..self
            }
            .and(Motion::Stays),
            BindOperation::SetSymbol { flags, name } => Registers {
                named: true,
                flags,
                name,
                ..self
            }
            .and(Motion::Stays),
            BindOperation::SetType { kind } => Registers {
                typed: true,
                kind,
                ..self
            }
            .and(Motion::Stays),
            BindOperation::SetAddend { addend } => Registers { addend, ..self }.and(Motion::Stays),
            BindOperation::SetSegmentAndOffset { index, offset } => Registers {
                segmented: true,
                segment: index,
                ..self
            }
            .and(Motion::Seeks(offset)),
            BindOperation::AddAddr { offset } => self.and(Motion::Adds(offset)),
            BindOperation::DoBind => self.and(Motion::Repeats(1, 0)),
            BindOperation::DoBindAddAddr { offset } => self.and(Motion::Repeats(1, offset)),
            BindOperation::DoBindAddAddrScaled { count } => {
                self.and(Motion::Repeats(1, cursor::scaled(count, size)))
            }
            BindOperation::DoBindTimesSkipping { count, skip } => {
                self.and(Motion::Repeats(count, skip))
            }
        }
    }

    fn lack(self) -> Option<Refusal> {
        if !self.segmented {
            Some(Refusal::NoSegment)
        } else if !self.typed {
            Some(Refusal::NoType)
        } else if !self.sourced {
            Some(Refusal::NoLibrary)
        } else if !self.named {
            Some(Refusal::NoSymbol)
        } else {
            None
        }
    }

    fn item(self, offset: u64) -> Bind {
        Bind {
            segment: self.segment,
            offset,
            kind: self.kind,
            library: self.library,
            name: self.name,
            flags: self.flags,
            addend: self.addend,
        }
    }

    fn segment(self) -> u8 {
        self.segment
    }

    fn kind(self) -> u8 {
        self.kind
    }
}

impl Registers {
    // Nothing is set.
    fn unset(lazy: bool) -> Registers
        ensures { result ≡ unset lazy }
    {
        Registers {
            name: Part {
                place: 0,
                length: 0,
            },
            addend: 0,
            library: 0,
            segment: 0,
            kind: 0,
            flags: 0,
            lazy,
            segmented: false,
            typed: false,
            sourced: false,
            named: false,
        }
    }

    // At the start of a lazy walk. (Set in place: with `..Registers::unset(true)` the flags are taken apart and put
    // together again at each operation, and a preflight of binds takes a third longer.)
    fn lazily() -> Registers
        ensures { result ≡ lazily }
    {
        let mut g = Registers::unset(true);
        g.typed = true;
        g.kind = BindWalk::TYPE_POINTER;
        g
    }

    // What Done does.
    fn done(self) -> Effect<Registers>
        ensures { result ≡ done_effect self }
    {
        if self.lazy {
            Registers::lazily().and(Motion::Restarts)
        } else {
            self.and(Motion::Ends)
        }
    }

    // What setting a library's ordinal does.
    fn set_ordinal(self, ordinal: u64) -> Effect<Registers>
        ensures { result ≡ ordinal_effect ordinal self }
    {
        let Ok(library) = i32::try_from(ordinal) else {
            return self.and(Motion::Refuses(Refusal::OrdinalTooLarge));
        };
        Registers {
            sourced: true,
            library,
            ..self
        }
        .and(Motion::Stays)
    }

    // (Rebase streams have the same: as a function of the trait, which `effect` calls, it is not covered by
    // the prover.)
    fn and(self, motion: Motion) -> Effect<Registers>
        ensures { result ≡ (self and motion) }
    {
        Effect {
            motion,
            registers: self,
        }
    }
}

// How a bind walk starts: a trait, since a type of another crate takes no functions beside it.
pub trait BindStarts {
    ghost TYPE_POINTER: { ℕ };

    const TYPE_POINTER: u8;

    ghost WEAK_LOOKUP: { ℤ };

    const WEAK_LOOKUP: i32;

    // A walk over a stream of plain binds, of a pointer size.
    fn plain(size: u8) -> Result<BindWalk, Refusal>
        ensures { start_told result ≡ begin size plainly };

    // A walk over a stream of weak binds: type and library are set.
    fn weak(size: u8) -> Result<BindWalk, Refusal>
        ensures { start_told result ≡ begin size weakly };

    // A walk over a stream of lazy binds: the type is set, and Done does not end the walk.
    fn lazy(size: u8) -> Result<BindWalk, Refusal>
        ensures { start_told result ≡ begin size lazily };
}

impl BindStarts for BindWalk {
    ghost TYPE_POINTER = { 1 };

    const TYPE_POINTER: u8 = 1;

    ghost WEAK_LOOKUP = { neg_ℤ (pos 3) };

    const WEAK_LOOKUP: i32 = -3;

    fn plain(size: u8) -> Result<BindWalk, Refusal> {
        Walk::begin(size, Registers::unset(false))
    }

    fn weak(size: u8) -> Result<BindWalk, Refusal> {
        let registers = Registers {
            typed: true,
            kind: BindWalk::TYPE_POINTER,
            sourced: true,
            library: BindWalk::WEAK_LOOKUP,
            ..Registers::unset(false)
        };
        Walk::begin(size, registers)
    }

    fn lazy(size: u8) -> Result<BindWalk, Refusal> {
        Walk::begin(size, Registers::lazily())
    }
}
