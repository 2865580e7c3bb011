// The DF search for callers that want its reply and the times alone: the other tables are its own, with room for every
// map.

ghost use Rattle.std.specs.Prelude.{◌≡◌};
ghost use Rattle.net.specs.Search.{df_search};
ghost use Rattle.reply.specs.Reply.{asked, roomy, reply_of, searched};

use super::calls::df;
use reply::{Found, TurnedDown};

// The entries of a table with room for every map.
pub const TABLE: usize = 2048;

pub fn df_times(
    image: &[u8],
    source: u16,
    strip: u16,
    times: &mut [u32],
) -> Result<Found, TurnedDown>
    ensures reply { reply_of result ≡
        (searched df_search (asked image.now source strip) (roomy times.old)).reply }
    ensures times { times.new ≡
        (searched df_search (asked image.now source strip) (roomy times.old)).tables.times }
{
    let mut moves = [0u16; TABLE];
    let mut preds = [0u16; TABLE];
    let mut marks = [0u8; TABLE];
    let mut list = [0u8; TABLE];
    df(
        image, source, strip, times, &mut moves, &mut preds, &mut marks, &mut list,
    )
}
