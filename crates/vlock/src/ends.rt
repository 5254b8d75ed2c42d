//! An image is opened for threads, and ends: it is closed when all callers have ended, or its power is cut while they stand anywhere.

ghost use Rattle.std.specs.Prelude.{◌≡◌, [], ◌∷◌, IfOk, length};
ghost use Rattle.std.specs.Mem.Slots.{slots_items, slots_len, IsFull};
ghost use Rattle.world.specs.Attempts.{OwesNothing};
ghost use Rattle.vlock.specs.Ruling.{word, ground_of, first_of};
ghost use Rattle.vlock.specs.Plays.{IsSeatOf};
ghost use Rattle.vlock.specs.Ends.{IsOpened, IsEnd, IsPowerCut, OpensAgain};

use crate::knows::Watch;
use crate::table::{ImageSeat, Opening, Rule};
use atomic_table::{Closed, Table};
use std::alloc::{AllocError, Global};

/// An open image with its memory. Threads share its field `shared`.
pub type OwnedImage = Table<u8, Watch, Opening, Rule, Global>;

/// Opens an image over its words and those behind it, as a restart leaves them. The seat stands for all callers. Which
/// words lie in the table is said by its rule alone.
///
/// `Err`: there was no memory.
pub fn open(
    alloc: Global,
    words: &[u64],
    key: &Opening,
) -> Result<(OwnedImage, ImageSeat), AllocError>
    requires { (key.now.words.value.items ≡ words.now) × IsOpened key.now }
    ensures table { IfOk result (λ t. t.0.shared.key ≡ key.now) }
    ensures seat { IfOk result (λ t. IsSeatOf t.0.shared.table_id t.0.shared.key t.1 × (t.1.me ≡ (first_of key.now, []))) }
{
    Table::of_words(alloc, words, key)
}

/// The words of a table that no thread shares any more and that has no slot. They come in `room`, which has as many.
fn words_in(closed: Closed<u8, Global>, mut room: Vec<u64>) -> Vec<u64>
    requires full { IsFull closed.words }
    requires slots { slots_len closed.slots ≡ 0 }
    requires room { length room.items ≡ slots_len closed.words }
    ensures { result.items ≡ slots_items closed.words }
{
    for i in 0..room.len() {
        room[i] = closed.word(i);
    }
    closed.free();
    room
}

/// Closes an image: `keeper` has taken in the seats of all other callers, and owes nothing. The words, those behind the
/// image with them, come back in `room`, which has as many.
///
/// The replies of the passes that the keeper took in are in its views.
pub fn close(table: OwnedImage, keeper: ImageSeat, room: Vec<u64>) -> Vec<u64>
    requires seat { IsSeatOf table.shared.table_id table.shared.key keeper }
    requires callers { keeper.me.0.view.callers ≡ table.shared.key.callers }
    requires owes { OwesNothing keeper.me.0.view }
    requires room { length room.items ≡ table.shared.table_id.words }
    ensures length { length result.items ≡ table.shared.table_id.words }
    ensures end { IsEnd (ground_of table.shared.key) (word result.items) (keeper.me.0.view ∷ keeper.me.0.past) }
{
    let closed = table.close_with(keeper);
    words_in(closed, room)
}

/// Ends an image where its power was cut: `keeper` has taken in the seats of all other callers, wherever these stood, so that it holds
/// and owes what they did. Words, those behind the image with them, come back in `room`, which has as many. Of the keeper's views there is
/// one history, and whatever the cut may have left of these words is good over it; they themselves may be left, and what may be left
/// beside them is said by the keeper's own view.
pub fn cut(table: OwnedImage, keeper: ImageSeat, room: Vec<u64>) -> Vec<u64>
    requires seat { IsSeatOf table.shared.table_id table.shared.key keeper }
    requires callers { keeper.me.0.view.callers ≡ table.shared.key.callers }
    requires room { length room.items ≡ table.shared.table_id.words }
    ensures length { length result.items ≡ table.shared.table_id.words }
    ensures left { IsPowerCut (ground_of table.shared.key) (word result.items) (keeper.me.0.view ∷ keeper.me.0.past) }
{
    let ended = table.close_with(keeper);
    words_in(ended, room)
}

/// The words that a close gave may be opened again, once those behind the image are 0. This is a law: the function does nothing.
pub fn ends_open_again()
    ensures { OpensAgain }
{}
