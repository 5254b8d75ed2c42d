//! The keeper takes passes in.

ghost use Rattle.std.specs.Prelude.{◌≡◌, ℕ, ◌<◌, All};
ghost use Rattle.vlock.specs.Plays.{IsSeatOf};
ghost use Rattle.shared_image.specs.Closed.{with_all};

use crate::image::{Keeper, Pass};
use vlock::{Image, ImageSeat, take_in};

/// The keeper's seat, which has taken passes in, in their order.
pub(crate) fn take_all(image: &Image, keeper: Keeper, passes: Vec<Pass>) -> ImageSeat
    requires keeper { IsSeatOf image.now.table_id image.now.key keeper.seat }
    requires callers { 0 < keeper.seat.me.0.view.callers }
    requires passes { All (λ pass. IsSeatOf image.now.table_id image.now.key pass) passes.items }
    ensures seat { IsSeatOf image.now.table_id image.now.key result }
    ensures taken { result.me.0 ≡ with_all keeper.seat.me.0 passes.items }
{
    let Keeper { mut seat } = keeper;
    for pass in passes {
        take_in(image, &mut seat, pass);
    }
    seat
}
