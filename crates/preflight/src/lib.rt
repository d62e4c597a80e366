// The preflight of an opcode stream: does a walk over it end without refusal, with every place inside
// its segment? However many places a repeat has, it is not stepped through.

#![tactic(auto)]

mod flight;
mod sizes;
mod spot;

ghost use Rattle.std.specs.Prelude.{◌≡◌};
ghost use Rattle.bind.specs.Binds.{plainly, weakly, lazily, binds};
ghost use Rattle.rebase.specs.Rebases.{unset, rebases};
ghost use Rattle.preflight.specs.Told.{fault_of, told};
ghost use Rattle.preflight.specs.Verdict.{preflight};

use crate::flight::fly_from;
use bind::{BindStarts, BindWalk};
use rebase::{RebaseStarts, RebaseWalk};
use refusal::Refusal;

// The first fault of a stream: the byte position where its operation starts, and the index in the repeat
// of a place that is outside.
#[derive(Clone, Copy, Debug, PartialEq, Eq)]
pub struct Fault {
    pub position: u64,
    pub index: u64,
    pub refusal: Refusal,
}

impl Fault {
    // A fault before any byte of the stream.
    fn at_start(refusal: Refusal) -> Fault
        ensures { result ≡ fault_of refusal 0 0 }
    {
        Fault {
            position: 0,
            index: 0,
            refusal,
        }
    }
}

// The preflight of a rebase stream, for a pointer size and the sizes of the segments: so many operations
// were read, Done included; or the first fault.
#[tactic(auto, using(crate::proofs::Loops::started_as))]
pub fn rebases(s: &[u8], size: u8, sizes: &[u64]) -> Result<u64, Fault>
    ensures { told result ≡ preflight rebases unset size sizes.now s.now }
{
    fly_from(RebaseWalk::start(size), s, size, sizes)
}

// The preflight of a stream of plain binds.
#[tactic(auto, using(crate::proofs::Loops::started_as))]
pub fn plain_binds(s: &[u8], size: u8, sizes: &[u64]) -> Result<u64, Fault>
    ensures { told result ≡ preflight binds plainly size sizes.now s.now }
{
    fly_from(BindWalk::plain(size), s, size, sizes)
}

// The preflight of a stream of weak binds.
#[tactic(auto, using(crate::proofs::Loops::started_as))]
pub fn weak_binds(s: &[u8], size: u8, sizes: &[u64]) -> Result<u64, Fault>
    ensures { told result ≡ preflight binds weakly size sizes.now s.now }
{
    fly_from(BindWalk::weak(size), s, size, sizes)
}

// The preflight of a stream of lazy binds.
#[tactic(auto, using(crate::proofs::Loops::started_as))]
pub fn lazy_binds(s: &[u8], size: u8, sizes: &[u64]) -> Result<u64, Fault>
    ensures { told result ≡ preflight binds lazily size sizes.now s.now }
{
    fly_from(BindWalk::lazy(size), s, size, sizes)
}
