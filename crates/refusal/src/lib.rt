// The refusals: why a start, a walk or a preflight gives no more. `specs/Numbers.antt` says when each
// is given.

#![tactic(auto)]

ghost use Rattle.std.specs.Prelude.{◌≡◌};
ghost use Rattle.refusal.specs.Numbers.{number_of};

#[derive(Clone, Copy, Debug, PartialEq, Eq)]
pub enum Refusal {
    PointerSize,
    UnknownOpcode,
    FaultyOperand,
    OrdinalTooLarge,
    NoSegment,
    NoType,
    NoLibrary,
    NoSymbol,
    FaultyChains,
    UnknownVersion,
    UnsupportedFormat,
    BeyondStarts,
    PointerOutside,
    FaultyImport,
    FaultyNode,
    ChildIsOpen,
    TooManyOpenNodes,
    NameTooLong,
    StateOutOfRange,
    PlaceOutside,
    UnfitSizes,
}

impl Refusal {
    // The number by which hosts know the refusal.
    pub fn number(self) -> u8
        ensures { result ≡ number_of self }
    {
        match self {
            Refusal::PointerSize => 1,
            Refusal::UnknownOpcode => 2,
            Refusal::FaultyOperand => 3,
            Refusal::OrdinalTooLarge => 4,
            Refusal::NoSegment => 5,
            Refusal::NoType => 6,
            Refusal::NoLibrary => 7,
            Refusal::NoSymbol => 8,
            Refusal::FaultyChains => 9,
            Refusal::UnknownVersion => 10,
            Refusal::UnsupportedFormat => 11,
            Refusal::BeyondStarts => 12,
            Refusal::PointerOutside => 13,
            Refusal::FaultyImport => 14,
            Refusal::FaultyNode => 15,
            Refusal::ChildIsOpen => 16,
            Refusal::TooManyOpenNodes => 17,
            Refusal::NameTooLong => 18,
            Refusal::StateOutOfRange => 19,
            Refusal::PlaceOutside => 20,
            Refusal::UnfitSizes => 21,
        }
    }
}
