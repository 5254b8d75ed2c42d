//! A shared image ends where its power was cut.

ghost use Rattle.std.specs.Prelude.{◌≡◌, ◌+◌, All, length};
ghost use Rattle.image_layout.specs.Places.{words_of};
ghost use Rattle.sound_image.specs.Image.{IsSoundImage};
ghost use Rattle.shared_image.specs.Powered.{IsOn, IsKeeperOf, IsPassOf, ground_in, callers_left};
ghost use Rattle.shared_image.specs.Closed.{callers_of, replies_of};
ghost use Rattle.shared_image.specs.Cutting.{LeavesGoodMedia, WasCut};

use crate::image::{Keeper, Pass, SharedImage};
use crate::taking::take_all;
use word_bits::each_fits;

/// Ends an image where its power was cut: the keeper takes all passes in, wherever their callers stood, in the midst of calls, splits and
/// repairs too. It gives words of the image which are one of the media that the cut may leave, and beside which each of these is good.
pub fn cut(image: SharedImage, keeper: Keeper, passes: Vec<Pass>) -> Vec<u64>
    requires on { IsOn image }
    requires keeper { IsKeeperOf image keeper }
    requires passes { All (IsPassOf image) passes.items }
    requires all { callers_left keeper + callers_of passes.items ≡ (ground_in image).callers }
    ensures length { length result.items ≡ words_of (ground_in image).shape }
    ensures sound { IsSoundImage (ground_in image).shape result.items }
    ensures media { LeavesGoodMedia (ground_in image) passes.items result.items }
    ensures was_cut { WasCut (ground_in image) (replies_of passes.items) result.items }
{
    let SharedImage {
        table,
        geometry,
        started: _,
        room,
    } = image;
    let seat = take_all(&table.shared, keeper, passes);
    let mut words = vlock::cut(table, seat, room);
    words.truncate(geometry.words() as usize);
    each_fits(words.as_slice());
    words
}
