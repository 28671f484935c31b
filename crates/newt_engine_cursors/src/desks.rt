//! An open cursor of a desk.
ghost use Rattle.std.specs.Prelude.{◌≡◌, option_map, option_and_then, slice_get};
ghost use Rattle.newt_cursor.specs.Seen.{query_of};
ghost use Rattle.newt_spec_world.specs.World.{flat};
ghost use Rattle.newt_index.specs.Spots.{spot_hit};
ghost use Rattle.newt_engine_cursors.specs.Keyed.{seen_cursor, stands_on};

use newt_cursor::{Desk, Place, Query};
use newt_index::Spot;

/// The query and the place of a cursor, if it is open.
pub(crate) fn open_cursor<'a>(desk: &'a Desk, cursor: u8) -> Option<(&'a Query, &'a Place)>
    ensures { option_map seen_cursor result ≡ flat (slice_get desk.now cursor) }
{
    match (desk.query(cursor), desk.place(cursor)) {
        (Some(query), Some(place)) => Some((query, place)),
        _ => None,
    }
}

/// The query and the hit of a cursor that is open and stands on one.
pub(crate) fn standing<'a>(desk: &'a Desk, cursor: u8) -> Option<(&'a Query, &'a Spot)>
    ensures { option_map (λ x. (query_of x.0.now, spot_hit x.1.now)) result
        ≡ option_and_then stands_on (flat (slice_get desk.now cursor)) }
{
    match open_cursor(desk, cursor) {
        Some((query, Place::On(spot))) => Some((query, spot)),
        Some((_, Place::Start)) | Some((_, Place::Finish)) | None => None,
    }
}
