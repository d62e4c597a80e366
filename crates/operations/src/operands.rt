// The operands of operations that have more than one of a kind.
ghost use Rattle.std.specs.Prelude.{◌≡◌};
ghost use Rattle.operations.specs.Table.{ulebs_at};

use numbers::leb128::read_uleb;

// Two unsigned numbers, one behind the other, and the place behind both.
#[tactic(auto, unfolding(numbers::specs::Then::then))]
pub(crate) fn read_ulebs(s: &[u8], at: usize) -> Option<((u64, u64), usize)>
    ensures { result ≡ ulebs_at s.now at }
{
    let (first, next) = read_uleb(s, at)?;
    let (second, after) = read_uleb(s, next)?;
    Some(((first, second), after))
}
