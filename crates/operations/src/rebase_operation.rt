// The operations of a rebase stream.
ghost use Rattle.std.specs.Prelude.{◌≡◌};
ghost use Rattle.operations.specs.Loader.{rebase_table};
ghost use Rattle.operations.specs.Table.{operation_at};
ghost use Rattle.operations.specs.Told.{told};

use crate::operands::read_ulebs;
use numbers::leb128::read_uleb;
use refusal::Refusal::{self, FaultyOperand, UnknownOpcode};

#[derive(Clone, Copy, Debug, PartialEq, Eq)]
pub enum RebaseOperation {
    Done,
    SetType { kind: u8 },
    SetSegmentAndOffset { index: u8, offset: u64 },
    AddAddr { offset: u64 },
    AddAddrScaled { count: u8 },
    DoRebaseTimes { count: u64 },
    DoRebaseAddAddr { offset: u64 },
    DoRebaseTimesSkipping { count: u64, skip: u64 },
}

impl RebaseOperation {
    // The operation at a place, and the place behind it; none where no bytes are left.
    #[tactic(auto, unfolding(crate::specs::Table::operation_at, crate::specs::Table::looked_up, numbers::specs::Then::then))]
    pub fn parse(s: &[u8], at: usize) -> Result<Option<(Self, usize)>, Refusal>
        ensures { told result ≡ operation_at rebase_table s.now at }
    {
        if s.len() <= at {
            return Ok(None);
        }
        let opcode = s[at] / 16;
        let imm = s[at] % 16;
        match opcode {
            0 => Ok(Some((Self::Done, at + 1))),
            1 => Ok(Some((Self::SetType { kind: imm }, at + 1))),
            2 => {
                let (offset, next) = read_uleb(s, at + 1).ok_or(FaultyOperand)?;
                Ok(Some((Self::SetSegmentAndOffset { index: imm, offset }, next)))
            }
            3 => {
                let (offset, next) = read_uleb(s, at + 1).ok_or(FaultyOperand)?;
                Ok(Some((Self::AddAddr { offset }, next)))
            }
            4 => Ok(Some((Self::AddAddrScaled { count: imm }, at + 1))),
            5 => Ok(Some((
                Self::DoRebaseTimes {
                    count: u64::from(imm),
                },
                at + 1,
            ))),
            6 => {
                let (count, next) = read_uleb(s, at + 1).ok_or(FaultyOperand)?;
                Ok(Some((Self::DoRebaseTimes { count }, next)))
            }
            7 => {
                let (offset, next) = read_uleb(s, at + 1).ok_or(FaultyOperand)?;
                Ok(Some((Self::DoRebaseAddAddr { offset }, next)))
            }
            8 => {
                let ((count, skip), next) = read_ulebs(s, at + 1).ok_or(FaultyOperand)?;
                Ok(Some((Self::DoRebaseTimesSkipping { count, skip }, next)))
            }
            9..=255 => Err(UnknownOpcode),
        }
    }
}
