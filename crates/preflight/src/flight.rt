// The preflight of a stream, one operation after the other, whatever the kind of stream.
ghost use Rattle.std.specs.Prelude.{◌≡◌, ◌+◌, ◌^◌, ◌≤◌, ◌<◌};
ghost use Rattle.preflight.specs.Leg.{Placed, started, leg_over, leg_at};
ghost use Rattle.preflight.specs.Told.{fault_of, told, leg_told};
ghost use Rattle.preflight.specs.Verdict.{with_sizes};
ghost use Rattle.runs.specs.Told.{start_told};

use crate::Fault;
use crate::spot::{Flown, Spot, places};
use listing::{Registers, Walk};
use refusal::Refusal;

// Where a preflight stands: the place of the next operation, how many were read, the offset, and what
// operations have set.
#[derive(Clone, Copy)]
pub(crate) struct Flight<R> {
    pub(crate) at: usize,
    pub(crate) operations: u64,
    pub(crate) offset: u64,
    pub(crate) registers: R,
}

// What one operation comes to: the preflight stands behind it, and it yields so many places; or the
// preflight is over. (A `Result` would be no plainer: what is said may be a pass.)
#[derive(Clone, Copy)]
pub(crate) enum Leg<R> {
    On(Flight<R>, u64),
    Said(Result<u64, Fault>),
}

// The preflight of a stream from the start of its walk.
pub(crate) fn fly_from<R: Registers>(
    start: Result<Walk<R>, Refusal>,
    s: &[u8],
    size: u8,
    sizes: &[u64],
) -> Result<u64, Fault>
    requires { Placed R.machine }
    ensures { told result ≡ started R.machine size sizes.now s.now (start_told start) }
{
    let walk = start.map_err(Fault::at_start)?;
    fly(walk.registers, s, size, sizes)
}

// The preflight of a stream from the registers of a start.
fn fly<R: Registers>(start: R, s: &[u8], size: u8, sizes: &[u64]) -> Result<u64, Fault>
    requires { Placed R.machine }
    ensures { told result ≡ with_sizes R.machine start size sizes.now s.now }
{
    if !crate::sizes::fit(sizes) {
        return Err(Fault::at_start(Refusal::UnfitSizes));
    }
    let mut flight = Flight {
        at: 0,
        operations: 0,
        offset: 0,
        registers: start,
    };
    loop {
        match flight.leg(s, size, sizes) {
            Leg::On(next, _) => flight = next,
            Leg::Said(verdict) => return verdict,
        }
    }
}

impl<R: Registers> Flight<R> {
    // The operation at the place where the preflight stands.
    #[tactic(auto, unfolding(crate::specs::Leg::leg_of))]
    fn leg(self, s: &[u8], size: u8, sizes: &[u64]) -> Leg<R>
        requires { self.operations ≤ self.at }
        ensures { leg_told result ≡ leg_at R.machine size sizes.now s.now self }
    {
        match R::parse(s, self.at) {
            Ok(Some((op, next))) => self.over(op, next, size, sizes),
            Ok(None) => Leg::Said(Ok(self.operations)),
            Err(refusal) => Leg::Said(Err(self.fault(refusal, 0))),
        }
    }

    // An operation that is read; the place behind it is `next`. Its places are judged together.
    #[tactic(auto, unfolding(crate::specs::Leg::leg_over))]
    fn over(self, op: R::Operation, next: usize, size: u8, sizes: &[u64]) -> Leg<R>
        requires { self.operations + 1 < 2 ^ 64 }
        ensures { leg_told result ≡ leg_over R.machine size sizes.now self op next }
    {
        let did = self.registers.effect(size, op);
        let registers = did.registers;
        let operations = self.operations + 1;
        let spot = Spot {
            size,
            lack: registers.lack(),
            segment: registers.segment(),
            kind: registers.kind(),
        };
        match spot.fly(did.motion, self.offset, sizes) {
            Flown::On(offset) => Leg::On(
                Flight {
                    at: next,
                    operations,
                    offset,
                    registers,
                },
                places(did.motion),
            ),
            Flown::Pass => Leg::Said(Ok(operations)),
            Flown::Fault(refusal, index) => Leg::Said(Err(self.fault(refusal, index))),
        }
    }

    // A fault of the operation at the place where the preflight stands.
    fn fault(self, refusal: Refusal, index: u64) -> Fault
        ensures { result ≡ fault_of refusal self.at index }
    {
        Fault {
            refusal,
            position: self.at as u64,
            index,
        }
    }
}
