// Streams: the offsets.
ghost use Rattle.std.specs.Prelude.{◌≡◌};
ghost use Rattle.laps.specs.Laps.{rebase_sum, bind_sum};

use crate::lap::lap;
use bind::{Bind, BindStarts, BindWalk};
use rebase::{Rebase, RebaseStarts, RebaseWalk};

// Of a rebase stream of a pointer size, by so many calls at most. (C names both of these; what they share is `lap`.)
#[unsafe(no_mangle)]
pub extern "C" fn laps_rebase(stream: &[u8], size: u8, limit: u64) -> u64
    ensures { result ≡ rebase_sum stream.now size limit }
{
    let Ok(w) = RebaseWalk::start(size) else {
        return 0;
    };
    lap(
        w,
        limit,
        |w: RebaseWalk| w.step(stream),
        |x: Rebase| x.offset,
    )
}

// Of a stream of plain binds.
#[unsafe(no_mangle)]
pub extern "C" fn laps_bind(stream: &[u8], size: u8, limit: u64) -> u64
    ensures { result ≡ bind_sum stream.now size limit }
{
    let Ok(w) = BindWalk::plain(size) else {
        return 0;
    };
    lap(w, limit, |w: BindWalk| w.step(stream), |x: Bind| x.offset)
}
