//! An event is one step on the shared words.

ghost use Rattle.std.specs.Prelude.{◌≡◌, ◌≢◌, ◌<◌, []};
ghost use Rattle.op_core.specs.declared.want.Want.TheVariants.{Done};
ghost use Rattle.image_layout.specs.Volatile.{all_words_of};
ghost use Rattle.world.specs.Wants.{word_of, answer_to};
ghost use Rattle.vlock.specs.Ruling.{ground_of};
ghost use Rattle.vlock.specs.Plays.{IsSeatOf, MayDo, Tells, Answers};

use crate::table::{Acting, Acts, Image, ImageSeat};
use image_layout::Geometry;
use op_core::{Ans, Want};
use trace::LINE_WORDS;

/// The word that an event is on.
fn word_of(geometry: &Geometry, want: Want) -> usize
    requires { word_of geometry.now want < all_words_of geometry.now }
    ensures { result ≡ word_of geometry.now want }
{
    let counter = geometry.words() as usize;
    match want {
        Want::Load(word) | Want::Store(word, _) | Want::Exchange(word, ..) => word as usize,
        Want::Flush(line) => LINE_WORDS * line as usize,
        Want::Power => geometry.power_word() as usize,
        Want::Fence | Want::Draw | Want::Done => counter,
    }
}

/// One event, as one atomic step. It gives the value that its word was found to have.
///
/// `about` is not read: at a call with `Brand` the ghosts of `N` are made from the numbers in it. A flush is a load of the
/// first word of its line, and a fence one of the commit counter.
pub fn step<N: Acting, E>(
    image: &Image,
    geometry: &Geometry,
    seat: &mut ImageSeat,
    want: Want,
    about: &E,
) -> u64
    requires table { IsSeatOf image.now.table_id image.now.key seat.old }
    requires geometry { geometry.now ≡ image.now.key.geometry }
    requires acting { (ground_of image.now.key ≡ N.ground) × (want ≡ N.want) }
    requires word { (want ≢ Done) × (word_of image.now.key.geometry want < all_words_of image.now.key.geometry) }
    requires may { MayDo N.ground N.want N.kind seat.old.me.0.view }
    ensures table { IsSeatOf image.now.table_id image.now.key seat.new }
    ensures view { Tells N.ground N.want N.kind seat.old.me.0 result seat.new.me.0 }
{
    let _ = about;
    let word = word_of(geometry, want);
    match want {
        Want::Store(_, new) => image.swap::<Acts<N>>(seat, word, new),
        Want::Exchange(_, old, new) => image.compare_exchange::<Acts<N>>(seat, word, old, new),
        Want::Draw => image.fetch_add::<Acts<N>>(seat, word, 1),
        Want::Load(_) | Want::Flush(_) | Want::Fence | Want::Power => {
            image.load::<Acts<N>>(seat, word)
        }
        Want::Done => unreachable!(),
    }
}

/// What is answered to an event whose word was found to have this value.
pub fn answer(want: Want, found: u64) -> Ans
    ensures { result ≡ answer_to want found }
{
    match want {
        Want::Load(_) | Want::Power => Ans::Value(found),
        Want::Exchange(_, old, _) => {
            if found == old {
                Ans::Won
            } else {
                Ans::Lost(found)
            }
        }
        Want::Draw => Ans::Drawn(found),
        Want::Store(..) | Want::Flush(_) | Want::Fence | Want::Done => Ans::Passed,
    }
}

/// One event, as one atomic step, with its answer.
pub fn event<N: Acting, E>(
    image: &Image,
    geometry: &Geometry,
    seat: &mut ImageSeat,
    want: Want,
    about: &E,
) -> Ans
    requires table { IsSeatOf image.now.table_id image.now.key seat.old }
    requires geometry { geometry.now ≡ image.now.key.geometry }
    requires acting { (ground_of image.now.key ≡ N.ground) × (want ≡ N.want) }
    requires word { (want ≢ Done) × (word_of image.now.key.geometry want < all_words_of image.now.key.geometry) }
    requires may { MayDo N.ground N.want N.kind seat.old.me.0.view }
    ensures table { IsSeatOf image.now.table_id image.now.key seat.new }
    ensures view { Answers N.ground N.want N.kind seat.old.me.0 result seat.new.me.0 }
{
    answer(want, step::<N, E>(image, geometry, seat, want, about))
}
