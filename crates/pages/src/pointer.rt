// Chained pointers: what a pointer says, by its format.
ghost use Rattle.std.specs.Prelude.{◌≡◌};
ghost use Rattle.pages.specs.ChainedPointers.{is_format, is_narrow, narrow_fixup, wide_fixup, fixup_of, next_of};

// The pointer is to hold this offset from the start of the image, with high8 in its top byte.
#[derive(Clone, Copy, Debug, PartialEq, Eq)]
pub struct Rebase {
    pub target: u64,
}

// The pointer is to hold the address of the import of this index, plus the addend.
#[derive(Clone, Copy, Debug, PartialEq, Eq)]
pub struct Bind {
    pub ordinal: u64,
    pub addend: u64,
}

#[derive(Clone, Copy, Debug, PartialEq, Eq)]
pub enum Fixup {
    Rebase(Rebase),
    Bind(Bind),
}

// Whether pointers of this format are read. (It is a number, as the segment's record and the states of C have it.)
pub(crate) fn is_format(format: u16) -> bool
    ensures { result ≡ is_format format }
{
    format == 2 || format == 3 || format == 6
}

// Whether a pointer has four bytes, and not eight.
pub(crate) fn is_narrow(format: u16) -> bool
    ensures { result ≡ is_narrow format }
{
    format == 3
}

// What the pointer n says.
#[tactic(auto, unfolding(crate::specs::ChainedPointers::fixup_of))]
pub(crate) fn meaning(format: u16, base: u64, n: u64) -> Fixup
    ensures { result ≡ fixup_of format base n }
{
    match format {
        3 => narrow(base, n),
        6 => wide(0, n),
        _ => wide(base, n),
    }
}

// How many bytes after the pointer n the next one is; 0 ends the chain.
#[tactic(auto, unfolding(crate::specs::ChainedPointers::next_of))]
pub(crate) fn next(format: u16, n: u64) -> u64
    ensures { result ≡ next_of format n }
{
    if is_narrow(format) {
        return 4 * (n / 0x400_0000 % 0x20);
    }
    4 * (n / 0x8_0000_0000_0000 % 0x1000)
}

// A pointer of four bytes. Here and in `wide` the code is a table, as the header has structs for each: one function would
// take a width for each field, and of four bytes there is no high8.
#[tactic(auto, unfolding(crate::specs::ChainedPointers::narrow_fixup))]
fn narrow(base: u64, n: u64) -> Fixup
    ensures { result ≡ narrow_fixup base n }
{
    if n / 0x8000_0000 % 2 == 1 {
        return Fixup::Bind(Bind {
            ordinal: n % 0x10_0000,
            addend: n / 0x10_0000 % 0x40,
        });
    }
    Fixup::Rebase(Rebase {
        target: (n % 0x400_0000).wrapping_sub(base),
    })
}

// A pointer of eight bytes.
#[tactic(auto, unfolding(crate::specs::ChainedPointers::wide_fixup))]
fn wide(base: u64, n: u64) -> Fixup
    ensures { result ≡ wide_fixup base n }
{
    if n / 0x8000_0000_0000_0000 % 2 == 1 {
        return Fixup::Bind(Bind {
            ordinal: n % 0x100_0000,
            addend: n / 0x100_0000 % 0x100,
        });
    }
    let target = (n % 0x10_0000_0000).wrapping_sub(base);
    let high = n / 0x10_0000_0000 % 0x100;
    Fixup::Rebase(Rebase {
        target: target | high * 0x100_0000_0000_0000,
    })
}
