// What an opcode stream lists, and the walk over it, once for every kind of stream: a state goes in, and
// an item, the end or a refusal comes out, with the next state.

#![tactic(auto)]

ghost use Rattle.std.specs.Prelude.{◌≡◌};
ghost use Rattle.listing.specs.Call.{begin, refusal, due, read, call};
ghost use Rattle.listing.specs.Machine.{Machine};
ghost use Rattle.listing.specs.Stream.{stream_at};
ghost use Rattle.operations.specs.Table.{operation_at};
ghost use Rattle.operations.specs.Told as operations;
ghost use Rattle.runs.specs.Told.{start_told, told};

use cursor::{Cursor, Motion, Moved, Standing};
use refusal::Refusal;
use runs::Step;

// What an operation does: the registers from now on, and what becomes of the place.
#[derive(Clone, Copy, Debug, PartialEq, Eq)]
pub struct Effect<R> {
    pub motion: Motion,
    pub registers: R,
}

// What the operations of a kind of stream set, but for the offset. `machine` is the kind of stream.
pub trait Registers: Copy {
    type Operation: Copy;

    type Item: Copy;

    ghost machine: { Machine Self.Operation Self Self.Item };

    // The operation at a place, and the place behind it; none where no bytes are left.
    fn parse(s: &[u8], at: usize) -> Result<Option<(Self::Operation, usize)>, Refusal>
        ensures { operations.told result ≡ operation_at machine.table s.now at };

    // What an operation does.
    fn effect(self, size: u8, op: Self::Operation) -> Effect<Self>
        ensures { result ≡ machine.effect size op self };

    // What a place that is due lacks.
    fn lack(self) -> Option<Refusal>
        ensures { result ≡ machine.lack self };

    // What a place at an offset gives.
    fn item(self, offset: u64) -> Self::Item
        ensures { result ≡ machine.item self offset };

    // The segment of a place that is due.
    fn segment(self) -> u8
        ensures { result ≡ (machine.place (machine.item self 0)).segment };

    // The type of a place that is due.
    fn kind(self) -> u8
        ensures { result ≡ (machine.place (machine.item self 0)).kind };
}

// Where a walk stands: in the stream, and what operations have set.
#[derive(Clone, Copy, Debug, PartialEq, Eq)]
pub struct Walk<R> {
    pub cursor: Cursor,
    pub registers: R,
}

impl<R: Registers> Walk<R> {
    // A walk over a stream of a pointer size, from these registers on.
    pub fn begin(size: u8, registers: R) -> Result<Walk<R>, Refusal>
        ensures { start_told result ≡ begin size registers }
    {
        let cursor = Cursor::start(size)?;
        Ok(Walk { cursor, registers })
    }

    // The next item, the end or a refusal, and the next state, for any state and any bytes.
    #[tactic(auto, unfolding(crate::specs::Call::call))]
    pub fn step(self, s: &[u8]) -> Step<Walk<R>, R::Item>
        ensures { told result ≡ call R.machine s.now self }
    {
        match self.cursor.standing(s.len()) {
            Standing::OutOfRange => Step::Refused(self, Refusal::StateOutOfRange),
            Standing::Ended => Step::End(self),
            Standing::Due(cursor) => self.due(self.cursor.offset, Walk { cursor, ..self }),
            Standing::Reading => self.read(s),
        }
    }

    // Reads operations until a place is due, the stream ends or something is refused.
    fn read(self, s: &[u8]) -> Step<Walk<R>, R::Item>
        ensures { told result ≡ read R.machine self (stream_at R.machine s.now self.cursor.at) self }
    {
        let mut cursor = self.cursor;
        let mut registers = self.registers;
        loop {
            match R::parse(s, cursor.at) {
                Ok(None) => return Step::End(Walk { cursor, registers }),
                Err(e) => return self.refused(e),
                Ok(Some((op, next))) => {
                    let did = registers.effect(cursor.size, op);
                    registers = did.registers;
                    let offset = cursor.offset;
                    match cursor.moved(next, did.motion) {
                        Moved::On(c) => cursor = c,
                        Moved::Due(cursor) => {
                            return self.due(offset, Walk { cursor, registers });
                        }
                        Moved::End(cursor) => return Step::End(Walk { cursor, registers }),
                        Moved::Refused(e) => return self.refused(e),
                    }
                }
            }
        }
    }

    // The place that is due at an offset, with the state behind it, or what it lacks.
    #[tactic(auto, unfolding(crate::specs::Call::due))]
    fn due(self, offset: u64, behind: Walk<R>) -> Step<Walk<R>, R::Item>
        ensures { told result ≡ due R.machine self offset behind (R.machine.lack behind.registers) }
    {
        match behind.registers.lack() {
            None => Step::Item(behind, behind.registers.item(offset)),
            Some(e) => self.refused(e),
        }
    }

    // A refusal, with the state as given but marked as ended.
    fn refused(mut self, e: Refusal) -> Step<Walk<R>, R::Item>
        ensures { told result ≡ refusal self e }
    {
        self.cursor.ended = true;
        Step::Refused(self, e)
    }
}
