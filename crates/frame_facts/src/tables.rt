//! What stores to the structure do to owners, to tables and to what keys have. The functions do nothing: each stands for the law that
//! its contract says.

ghost use Rattle.std.specs.Prelude.{◌≡◌, ◌≢◌, ℕ, ◌<◌, ◌≤◌, Some};
ghost use Rattle.trace.specs.Events.{Words, with_word};
ghost use Rattle.image_layout.specs.Places.{Shape, IsShape, header_word, words_of};
ghost use Rattle.bucket_words.specs.Segments.{frame_of, IsLive, InOneSide};
ghost use Rattle.bucket_words.specs.Claims.{HasSoundFrame};
ghost use Rattle.bucket_words.specs.Stores.{GoesLive, StoreKeeps};
ghost use Rattle.bucket_words.specs.Owners.{IsStructure, SameOwners, owner_of};
ghost use Rattle.bucket_words.specs.Standing.{IsTable};
ghost use Rattle.bucket_words.specs.TableChanges.{KeepsTable};
ghost use Rattle.frame_facts.specs.Keeping.{AreSound, KeepsFacts};
ghost use Rattle.frame_facts.specs.Copies.{IsNoBucketWord, HasCopies, IsSlotCopy};
ghost use Rattle.frame_facts.specs.DeadSlots.{IsInSlot, IsPlainInSlot};

/// A store that keeps the claims leaves each hash its owner, be it of 64 bits or not; one that makes a side live gives it those of
/// the 1-side, and no others.
pub fn stores_keep_or_move_owners()
    ensures kept { (shape : Shape) (word : Words) → IsShape shape → HasSoundFrame shape word → (i x : ℕ) → StoreKeeps shape word i x
        → SameOwners shape word (with_word word i x) }
    ensures moved { (shape : Shape) (word : Words) → IsShape shape → HasSoundFrame shape word → (s n x : ℕ) → GoesLive (frame_of shape word) s n x
        → (h : ℕ) → InOneSide (frame_of shape word) s h
        → (owner_of shape word h ≡ Some s) × (owner_of shape (with_word word (header_word shape n) x) h ≡ Some n) }
    ensures spared { (shape : Shape) (word : Words) → IsShape shape → HasSoundFrame shape word → (s n x : ℕ) → GoesLive (frame_of shape word) s n x
        → (h : ℕ) → (InOneSide (frame_of shape word) s h → ⊥) → owner_of shape (with_word word (header_word shape n) x) h ≡ owner_of shape word h }
{}

/// A store to no bucket that keeps the claims keeps a table, and what each key has; so does one that makes a side live, where the side
/// has the records of the 1-side. No word of the structure is one of a bucket, nor is one behind the image.
pub fn stores_keep_tables()
    ensures kept { (shape : Shape) (word : Words) → IsShape shape → HasSoundFrame shape word → IsTable shape word → (i x : ℕ) → IsNoBucketWord shape i
        → StoreKeeps shape word i x → KeepsTable shape word (with_word word i x) }
    ensures handed { (shape : Shape) (word : Words) → IsShape shape → HasSoundFrame shape word → IsTable shape word → (s n x : ℕ) → GoesLive (frame_of shape word) s n x
        → HasCopies shape word s n → KeepsTable shape word (with_word word (header_word shape n) x) }
    ensures structure { (shape : Shape) (i : ℕ) → IsStructure shape i → IsNoBucketWord shape i }
    ensures behind { (shape : Shape) (i : ℕ) → words_of shape ≤ i → IsNoBucketWord shape i }
{}

/// A side to which the records of the 1-side were copied slot by slot has them, each where it is looked for.
pub fn slot_copies_are_copies()
    ensures { (shape : Shape) (word : Words) → IsTable shape word → (s n : ℕ) → s < shape.segments → n < shape.segments
        → ((h : ℕ) → InOneSide (frame_of shape word) s h → owner_of shape word h ≡ Some s) → IsSlotCopy shape word s n → HasCopies shape word s n }
{}

/// The words of a slot in which no segment lives are nobody's: a store to one of them, if it is not the header word, leaves owners, a
/// table and what each key has; if it is not the link either, the frame and every fact.
pub fn dead_slots_are_nobodys()
    ensures owners { (shape : Shape) (word : Words) (n i x : ℕ) → IsInSlot shape n i → i ≢ header_word shape n → SameOwners shape word (with_word word i x) }
    ensures table { (shape : Shape) (word : Words) (n i x : ℕ) → IsInSlot shape n i → i ≢ header_word shape n → (IsLive (frame_of shape word) n → ⊥)
        → IsTable shape word → KeepsTable shape word (with_word word i x) }
    ensures frame { (shape : Shape) (word : Words) → IsShape shape → HasSoundFrame shape word → (n i x : ℕ) → IsPlainInSlot shape n i → StoreKeeps shape word i x }
    ensures facts { (shape : Shape) (version : ℕ) (words medium : Words) → AreSound shape words medium → (n i x : ℕ) → IsPlainInSlot shape n i
        → KeepsFacts shape version words medium i x }
{}
