//! An image is powered on: its medium is laid out, restarted and opened.

ghost use Rattle.std.specs.Prelude.{◌≡◌, ℕ, ◌+◌, ◌<◌, IfOk, length, slice_index};
ghost use Rattle.std.specs.FinMap.{get};
ghost use Rattle.image_layout.specs.Places.{words_of, state_word};
ghost use Rattle.image_layout.specs.Volatile.{all_words_of};
ghost use Rattle.map_model.specs.Map.{Map};
ghost use Rattle.sound_image.specs.Image.{IsSoundImage};
ghost use Rattle.session.specs.Left.{HasPairsOf};
ghost use Rattle.world.specs.Ground.{callers_bound};
ghost use Rattle.restart_op.specs.Restart.{started_for};
ghost use Rattle.restart_op.specs.Restarted.{words_at_end};
ghost use Rattle.vlock.specs.Ruling.{word};
ghost use Rattle.shared_image.specs.Powered.{IsOn, IsKeeperOf, ground_in, callers_left};

use crate::image::{Keeper, SharedImage};
use crate::memory::do_event;
use image_file::Medium;
use map_model::NoMemory;
use op_core::{Machine, Want};
use restart_op::{RestartOp, Started};
use std::alloc::Global;
use std::snapshot::Snapshot;
use vlock::{Opening, open};

/// The words of a medium, with 0 in those behind them.
fn laid_out(alloc: Global, medium: &Medium) -> Result<Vec<u64>, NoMemory>
    requires whole { length medium.now.words ≡ words_of medium.now.geometry }
    ensures words { IfOk result (λ words. word words.items ≡ slice_index medium.now.words) }
    ensures length { IfOk result (λ words. length words.items ≡ all_words_of medium.now.geometry) }
{
    let total = medium.geometry.all_words();
    let mut words = Vec::with_capacity(alloc, total)?;
    words.extend_from_slice(medium.words.as_slice())?;
    words.resize(total, 0)?;
    Ok(words)
}

/// Runs the restart of a medium over its words, and gives what that leaves.
fn restart(words: &mut Vec<u64>, medium: &Medium) -> Started
    requires sound { IsSoundImage medium.now.geometry medium.now.words }
    requires same { word words.old.items ≡ slice_index medium.now.words }
    requires whole { length words.old.items ≡ all_words_of medium.now.geometry }
    ensures words { word words.new.items ≡ words_at_end medium.now.geometry medium.now.words }
    ensures length { length words.new.items ≡ length words.old.items }
    ensures started { result ≡ started_for (slice_index medium.now.words state_word) }
{
    let mut op = RestartOp::new(medium.geometry);
    loop {
        match op.want() {
            Want::Done => return op.end(),
            want => {
                let ans = do_event(words, want);
                op.take(ans);
            }
        }
    }
}

/// Powers an image on, for so many callers and a keeper: the restart runs over its words, as after a close or a power cut, and threads
/// may share what it leaves. The medium stays as it was.
///
/// # Errors
///
/// `NoMemory` if memory runs out.
pub fn power_on(
    alloc: Global,
    medium: &Medium,
    callers: u64,
) -> Result<(SharedImage, Keeper), NoMemory>
    requires sound { IsSoundImage medium.now.geometry medium.now.words }
    requires callers { callers + 1 < callers_bound }
    ensures on { IfOk result (λ made. IsOn made.0) }
    ensures keeper { IfOk result (λ made. IsKeeperOf made.0 made.1) }
    ensures shape { IfOk result (λ made. (ground_in made.0).shape ≡ medium.now.geometry) }
    ensures callers { IfOk result (λ made. (callers_left made.1 ≡ callers + 1) × ((ground_in made.0).callers ≡ callers + 1)) }
    ensures words { IfOk result (λ made. (ground_in made.0).front ≡ words_at_end medium.now.geometry medium.now.words) }
    ensures pairs { IfOk result (λ made. (m : Map) → HasPairsOf medium.now.geometry (slice_index medium.now.words) m → (k : ℕ) → get m k ≡ (ground_in made.0).start k) }
{
    let geometry = medium.geometry;
    let mut room = laid_out(alloc, medium)?;
    let started = restart(&mut room, medium);
    let key = Opening {
        geometry,
        words: Snapshot::of(&room),
        callers: callers + 1,
    };
    let (table, seat) = open(alloc, &room, &key)?;
    let image = SharedImage {
        table,
        geometry,
        started,
        room,
    };
    Ok((image, Keeper { seat }))
}
