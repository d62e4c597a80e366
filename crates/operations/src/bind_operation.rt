// The operations of a bind stream.
ghost use Rattle.std.specs.Prelude.{◌≡◌, ◌<◌};
ghost use Rattle.operations.specs.Loader.{bind_table, special};
ghost use Rattle.operations.specs.Table.{operation_at};
ghost use Rattle.operations.specs.Told.{told};

use crate::operands::read_ulebs;
use numbers::leb128::{read_sleb, read_uleb};
use numbers::parts::Part;
use numbers::strings::read_string;
use refusal::Refusal::{self, FaultyOperand, UnknownOpcode};

// A symbol's name is a part of the stream.
#[derive(Clone, Copy, Debug, PartialEq, Eq)]
pub enum BindOperation {
    Done,
    SetDylibOrdinal { ordinal: u64 },
    SetDylibSpecial { ordinal: i32 },
    SetSymbol { flags: u8, name: Part },
    SetType { kind: u8 },
    SetAddend { addend: i64 },
    SetSegmentAndOffset { index: u8, offset: u64 },
    AddAddr { offset: u64 },
    DoBind,
    DoBindAddAddr { offset: u64 },
    DoBindAddAddrScaled { count: u8 },
    DoBindTimesSkipping { count: u64, skip: u64 },
}

impl BindOperation {
    // The operation at a place, and the place behind it; none where no bytes are left.
    #[tactic(auto, unfolding(crate::specs::Table::operation_at, crate::specs::Table::looked_up, numbers::specs::Then::then))]
    pub fn parse(s: &[u8], at: usize) -> Result<Option<(Self, usize)>, Refusal>
        ensures { told result ≡ operation_at bind_table s.now at }
    {
        if s.len() <= at {
            return Ok(None);
        }
        let opcode = s[at] / 16;
        let imm = s[at] % 16;
        match opcode {
            0 => Ok(Some((Self::Done, at + 1))),
            1 => Ok(Some((
                Self::SetDylibOrdinal {
                    ordinal: u64::from(imm),
                },
                at + 1,
            ))),
            2 => {
                let (ordinal, next) = read_uleb(s, at + 1).ok_or(FaultyOperand)?;
                Ok(Some((Self::SetDylibOrdinal { ordinal }, next)))
            }
            3 => Ok(Some((
                Self::SetDylibSpecial {
                    ordinal: special(imm),
                },
                at + 1,
            ))),
            4 => {
                let (name, next) = read_string(s, at + 1).ok_or(FaultyOperand)?;
                Ok(Some((Self::SetSymbol { flags: imm, name }, next)))
            }
            5 => Ok(Some((Self::SetType { kind: imm }, at + 1))),
            6 => {
                let (addend, next) = read_sleb(s, at + 1).ok_or(FaultyOperand)?;
                Ok(Some((Self::SetAddend { addend }, next)))
            }
            7 => {
                let (offset, next) = read_uleb(s, at + 1).ok_or(FaultyOperand)?;
                Ok(Some((Self::SetSegmentAndOffset { index: imm, offset }, next)))
            }
            8 => {
                let (offset, next) = read_uleb(s, at + 1).ok_or(FaultyOperand)?;
                Ok(Some((Self::AddAddr { offset }, next)))
            }
            9 => Ok(Some((Self::DoBind, at + 1))),
            10 => {
                let (offset, next) = read_uleb(s, at + 1).ok_or(FaultyOperand)?;
                Ok(Some((Self::DoBindAddAddr { offset }, next)))
            }
            11 => Ok(Some((Self::DoBindAddAddrScaled { count: imm }, at + 1))),
            12 => {
                let ((count, skip), next) = read_ulebs(s, at + 1).ok_or(FaultyOperand)?;
                Ok(Some((Self::DoBindTimesSkipping { count, skip }, next)))
            }
            13..=255 => Err(UnknownOpcode),
        }
    }
}

// The library that a special immediate stands for.
fn special(imm: u8) -> i32
    requires { imm < 16 }
    ensures { result ≡ special imm }
{
    if imm == 0 {
        return 0;
    }
    i32::from(imm) - 16
}
