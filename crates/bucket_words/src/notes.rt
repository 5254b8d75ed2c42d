//! Laws of overflow notes beside records in the stash. The functions do nothing: each stands for the law that its contract says.

ghost use Rattle.std.specs.Prelude.{◌≡◌, ℕ, ◌+◌, ◌<◌, ◌≤◌, List, ◌∷◌};
ghost use Rattle.trace.specs.Events.{Words, with_word};
ghost use Rattle.hash_word.specs.Hash.{home_of, finger_of, probing_of};
ghost use Rattle.bucket_meta.specs.Bucket.{mark_place, overflow_count, record_slots, first_key};
ghost use Rattle.bucket_meta.specs.Marks.{KeepsUpper};
ghost use Rattle.bucket_meta.specs.Notes.{OverflowNote, AreExact};
ghost use Rattle.image_layout.specs.Places.{Shape, bucket_at, homes, stash_bucket, stash_buckets, buckets};
ghost use Rattle.segment_table.specs.Records.{key_hash, word_in, notes_of, stashed_of, HasExactNotes};
ghost use Rattle.bucket_words.specs.Buckets.{IsTaken};
ghost use Rattle.bucket_words.specs.Hits.{Hit, HasNoneIn};
ghost use Rattle.bucket_words.specs.TableChanges.{ChangesSlot};
ghost use Rattle.bucket_words.specs.HomeNotes.{SameHomeNotes, IsUnnoted};

/// The notes of a home depend on words 1 to 3 of its bucket and of its probing bucket alone. A metadata word that keeps the
/// overflow parts keeps the notes and the count of every home. And exact notes stay exact where notes, count and stash records
/// stay.
pub fn notes_stay()
    ensures words { (shape : Shape) (word other : Words) (s b : ℕ)
        → ((n : ℕ) → mark_place ≤ n → n < first_key → other (bucket_at shape s b + n) ≡ word (bucket_at shape s b + n))
        → ((n : ℕ) → mark_place ≤ n → n < first_key → other (bucket_at shape s (probing_of b) + n) ≡ word (bucket_at shape s (probing_of b) + n))
        → notes_of shape other s b ≡ notes_of shape word s b }
    ensures metadata { (shape : Shape) (word : Words) (s b x : ℕ) → b < buckets → KeepsUpper (word (bucket_at shape s b + mark_place)) x
        → (q d : ℕ) → d < homes → (notes_of shape (with_word word (bucket_at shape s b + mark_place) x) q d ≡ notes_of shape word q d)
        × (overflow_count (word_in shape (with_word word (bucket_at shape s b + mark_place) x) q d mark_place) ≡ overflow_count (word_in shape word q d mark_place)) }
    ensures exact { (shape : Shape) (word other : Words) (s b : ℕ) → SameHomeNotes shape word other s b → HasExactNotes shape word s b → HasExactNotes shape other s b }
{}

/// Where the notes of a key's home are exact, none names its fingerprint in a stash bucket, and each record of the home has a
/// note, the key does not stand there.
pub fn exact_notes_tell_of_the_stash()
    ensures { (shape : Shape) (word : Words) (s c k : ℕ) → c < stash_buckets → HasExactNotes shape word s (home_of (key_hash shape k))
        → IsUnnoted shape word s (home_of (key_hash shape k)) (finger_of (key_hash shape k)) c → HasNoneIn shape word s (stash_bucket c) k }
{}

/// What a change of one slot makes of notes that are exact. Where a record comes to the stash, those of its home are exact with a
/// note of it; where one leaves, they are those of its stash records with it. Every other home has in the stash what it had, and
/// so has each where the slot is none of the stash.
pub fn stash_records_are_noted()
    ensures comes { (shape : Shape) (word other : Words) (s c r k : ℕ) → c < stash_buckets → r < record_slots → ChangesSlot shape word other s (stash_bucket c) r k
        → (IsTaken word (bucket_at shape s (stash_bucket c)) r → ⊥) → Hit shape other s (stash_bucket c) r k
        → (notes : List OverflowNote) (count : ℕ) → AreExact notes count (stashed_of shape word s (home_of (key_hash shape k)))
        → AreExact ((finger_of (key_hash shape k), c) ∷ notes) count (stashed_of shape other s (home_of (key_hash shape k))) }
    ensures leaves { (shape : Shape) (word other : Words) (s c r k : ℕ) → c < stash_buckets → r < record_slots → ChangesSlot shape word other s (stash_bucket c) r k
        → Hit shape word s (stash_bucket c) r k → (IsTaken other (bucket_at shape s (stash_bucket c)) r → ⊥)
        → (notes : List OverflowNote) (count : ℕ) → AreExact notes count (stashed_of shape word s (home_of (key_hash shape k)))
        → AreExact notes count ((finger_of (key_hash shape k), c) ∷ stashed_of shape other s (home_of (key_hash shape k))) }
    ensures others { (shape : Shape) (word other : Words) (s b r k : ℕ) → ChangesSlot shape word other s b r k
        → (q d : ℕ) → q < shape.segments → (q ≡ s → homes ≤ b → d ≡ home_of (key_hash shape k) → ⊥) → stashed_of shape other q d ≡ stashed_of shape word q d }
{}
