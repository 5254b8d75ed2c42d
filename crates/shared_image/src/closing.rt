//! A shared image is closed when all its passes are back.

ghost use Rattle.std.specs.Prelude.{◌≡◌, ◌+◌, ◌≤◌, All, length, slice_index};
ghost use Rattle.image_layout.specs.Places.{IsShape, words_of};
ghost use Rattle.sound_image.specs.Image.{IsSoundImage};
ghost use Rattle.sound_image.specs.Segments.{frame_of, IsClean};
ghost use Rattle.vlock.specs.Ruling.{word};
ghost use Rattle.shared_image.specs.Powered.{IsOn, IsKeeperOf, ground_in, callers_left};
ghost use Rattle.shared_image.specs.Closed.{IsClosedFrom, IsDone, callers_of, replies_of, HasWhatWasReplied, WasEnded};

use crate::image::{Keeper, Pass, SharedImage};
use crate::memory::do_event;
use crate::taking::take_all;
use image_layout::Geometry;
use op_core::{Machine, Want};
use restart_op::CloseOp;
use word_bits::each_fits;

/// Runs the close over words.
fn run_close(words: &mut Vec<u64>, geometry: Geometry)
    requires shape { IsShape geometry }
    requires whole { words_of geometry ≤ length words.old.items }
    ensures closed { IsClosedFrom geometry (word words.old.items) (word words.new.items) }
    ensures length { length words.new.items ≡ length words.old.items }
{
    let mut op = CloseOp::new(geometry);
    loop {
        match op.want() {
            Want::Done => return,
            want => {
                let ans = do_event(words, want);
                op.take(ans);
            }
        }
    }
}

/// Closes an image: the keeper takes its passes in, in their order, and the close runs over the words. It gives the words of the image,
/// which are a clean one.
pub fn close(image: SharedImage, keeper: Keeper, passes: Vec<Pass>) -> Vec<u64>
    requires on { IsOn image }
    requires keeper { IsKeeperOf image keeper }
    requires done { All (IsDone image) passes.items }
    requires all { callers_left keeper + callers_of passes.items ≡ (ground_in image).callers }
    ensures length { length result.items ≡ words_of (ground_in image).shape }
    ensures sound { IsSoundImage (ground_in image).shape result.items }
    ensures clean { IsClean (frame_of (ground_in image).shape (slice_index result.items)) }
    ensures replies { HasWhatWasReplied (ground_in image) (replies_of passes.items) result.items }
    ensures ended { WasEnded (ground_in image) (replies_of passes.items) result.items }
{
    let SharedImage {
        table,
        geometry,
        started: _,
        room,
    } = image;
    let seat = take_all(&table.shared, keeper, passes);
    let mut words = vlock::close(table, seat, room);
    each_fits(words.as_slice());
    run_close(&mut words, geometry);
    words.truncate(geometry.words() as usize);
    words
}
