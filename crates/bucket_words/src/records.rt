//! Laws of records in the buckets of any segment: what a key has, and what a store does to that. The functions do nothing: each
//! stands for the law that its contract says.

ghost use Rattle.std.specs.Prelude.{◌≡◌, ◌≢◌, ◌↔◌, ◌⊎◌, ℕ, ◌+◌, ◌^◌, ◌<◌, ◌≤◌, None, Some, Option};
ghost use Rattle.trace.specs.Events.{Words, with_word};
ghost use Rattle.bucket_meta.specs.Bucket.{mark_place, fingers_place, rest_place, allocated, member, finger, record_slots};
ghost use Rattle.bucket_meta.specs.Marks.{SameButSlot};
ghost use Rattle.hash_word.specs.Hash.{home_of, probing_of};
ghost use Rattle.image_layout.specs.Places.{Shape, IsShape, bucket_at, key_at, value_at, words_of, block, stash_bucket, stash_buckets, buckets};
ghost use Rattle.image_layout.specs.Standing.{StandsAt};
ghost use Rattle.segment_table.specs.Rules.{RecordsStandRight, KeysHaveOneValue};
ghost use Rattle.segment_table.specs.Records.{key_hash, HasAt};
ghost use Rattle.segment_table.specs.Claims.{HasSoundFrame};
ghost use Rattle.bucket_words.specs.Buckets.{IsTaken, value_in};
ghost use Rattle.bucket_words.specs.Slots.{SameSlot};
ghost use Rattle.bucket_words.specs.Core.{core_of, core, SameCoresIn};
ghost use Rattle.bucket_words.specs.Owners.{HasStructure, owner_of, home_at, SameOwners};
ghost use Rattle.bucket_words.specs.Hits.{Hit, HasNone, HasNoneIn, HasOnly, find};
ghost use Rattle.bucket_words.specs.Standing.{IsTable};
ghost use Rattle.bucket_words.specs.TableChanges.{KeepsTable, ChangesKey, OnlyNewHit, IsReadyAt, ChangesSlot, IsLeft, KeepsOrLeaves, IsVacated, KeepsOrVacates};

/// Which segment owns a hash depends on the structure alone, which no store to a bucket changes; and the owner is one of the
/// segments. A key's home bucket begins in the owner, and stays where owners stay.
pub fn owners_follow_the_structure()
    ensures kept { (shape : Shape) (word other : Words) → HasStructure shape word other → SameOwners shape word other }
    ensures apart { (shape : Shape) (word : Words) (s b n x : ℕ) → b < buckets → n < block → HasStructure shape word (with_word word (bucket_at shape s b + n) x) }
    ensures segment { (shape : Shape) (word : Words) (h s : ℕ) → owner_of shape word h ≡ Some s → s < shape.segments }
    ensures home { (shape : Shape) (word : Words) (s k : ℕ) → owner_of shape word (key_hash shape k) ≡ Some s
        → home_at shape word k ≡ bucket_at shape s (home_of (key_hash shape k)) }
    ensures same_home { (shape : Shape) (word other : Words) → SameOwners shape word other → (k : ℕ) → home_at shape other k ≡ home_at shape word k }
{}

/// A table is what follows the two rules about records, in an image whose structure is sound, and what a key has there, as sound
/// images say it, is what `find` gives.
pub fn tables_follow_the_rules()
    ensures rules { (shape : Shape) (word : Words) → IsShape shape → HasSoundFrame shape word → ((i : ℕ) → word i < 2 ^ 64)
        → IsTable shape word ↔ ((w : ℕ) → RecordsStandRight shape word w × KeysHaveOneValue shape word w) }
    ensures pairs { (shape : Shape) (word : Words) → IsShape shape → HasSoundFrame shape word → ((i : ℕ) → word i < 2 ^ 64) → IsTable shape word
        → (k : ℕ) (a : Option ℕ) → k < 2 ^ 64 → HasAt shape word k a ↔ (find shape word k ≡ a) }
{}

/// A key has the value of each of its records in the segment that owns its hash, in whatever bucket that stands; and nothing
/// exactly where it has no record there, or no segment owns it.
pub fn keys_are_found()
    ensures stands { (shape : Shape) (word : Words) (s b r k : ℕ) → IsTable shape word → Hit shape word s b r k → owner_of shape word (key_hash shape k) ≡ Some s
        → find shape word k ≡ Some (value_in word (bucket_at shape s b) r) }
    ensures found { (shape : Shape) (word : Words) (s k v : ℕ) → owner_of shape word (key_hash shape k) ≡ Some s → find shape word k ≡ Some v
        → (b : ℕ) × (r : ℕ) × Hit shape word s b r k × (value_in word (bucket_at shape s b) r ≡ v) }
    ensures absent { (shape : Shape) (word : Words) (s k : ℕ) → owner_of shape word (key_hash shape k) ≡ Some s → HasNone shape word s k ↔ (find shape word k ≡ None) }
    ensures unowned { (shape : Shape) (word : Words) (k : ℕ) → owner_of shape word (key_hash shape k) ≡ None → find shape word k ≡ None }
{}

/// What a change of one record slot does, of whatever segment and bucket: a table stays one, and each other key has what it had.
/// The key that takes the slot has the slot's value, if it is taken then; nothing, if it is free and no other slot has the key;
/// and what it had, if another slot has it before and after, or if another segment owns it.
pub fn one_slot_changes()
    ensures table { (shape : Shape) (word other : Words) (s b r k : ℕ) → IsTable shape word → ChangesSlot shape word other s b r k → IsTable shape other }
    ensures elsewhere { (shape : Shape) (word other : Words) (s b r k : ℕ) → IsTable shape word → ChangesSlot shape word other s b r k
        → (l : ℕ) → l ≢ k → find shape other l ≡ find shape word l }
    ensures taken { (shape : Shape) (word other : Words) (s b r k : ℕ) → IsTable shape word → ChangesSlot shape word other s b r k → b < buckets → r < record_slots
        → owner_of shape word (key_hash shape k) ≡ Some s → IsTaken other (bucket_at shape s b) r → find shape other k ≡ Some (value_in other (bucket_at shape s b) r) }
    ensures freed { (shape : Shape) (word other : Words) (s b r k : ℕ) → IsTable shape word → ChangesSlot shape word other s b r k → HasOnly shape word s b r k
        → owner_of shape word (key_hash shape k) ≡ Some s → (IsTaken other (bucket_at shape s b) r → ⊥) → find shape other k ≡ None }
    ensures still { (shape : Shape) (word other : Words) (s b r d u k : ℕ) → IsTable shape word → ChangesSlot shape word other s b r k
        → Hit shape word s d u k → (d ≡ b → u ≡ r → ⊥) → KeepsTable shape word other }
    ensures foreign { (shape : Shape) (word other : Words) (s b r k : ℕ) → IsTable shape word → ChangesSlot shape word other s b r k
        → (owner_of shape word (key_hash shape k) ≡ Some s → ⊥) → KeepsTable shape word other }
    ensures records { (shape : Shape) (word other : Words) (s b r k : ℕ) → ChangesSlot shape word other s b r k → OnlyNewHit shape word other s b r k }
{}

/// Where no record slot changes, and no owner, a table stays one, with the same pairs.
pub fn no_slot_changes()
    ensures { (shape : Shape) (word other : Words) → IsTable shape word → SameOwners shape word other
        → ((s b r : ℕ) → s < shape.segments → b < buckets → r < record_slots → SameSlot word other (bucket_at shape s b) r) → KeepsTable shape word other }
{}

/// Where no record slot changes, and no owner, but that slots are freed of records that their segment does not own, a table stays one, with
/// the same pairs: so where a metadata word is stored that frees such slots alone, however many they are.
pub fn foreign_records_leave()
    ensures slots { (shape : Shape) (word other : Words) → IsTable shape word → SameOwners shape word other
        → ((s b r : ℕ) → s < shape.segments → b < buckets → r < record_slots → SameSlot word other (bucket_at shape s b) r ⊎ IsLeft shape word other s b r)
        → KeepsTable shape word other }
    ensures metadata { (shape : Shape) (word : Words) (s b x : ℕ) → IsTable shape word → s < shape.segments → b < buckets
        → ((r : ℕ) → r < record_slots → KeepsOrLeaves shape word s b x r) → KeepsTable shape word (with_word word (bucket_at shape s b + mark_place) x) }
{}

/// So it is where slots are freed whose keys stand in another slot too, before and after, or whose records their segment does not own.
pub fn spoiled_records_leave()
    ensures slots { (shape : Shape) (word other : Words) → IsTable shape word → SameOwners shape word other
        → ((s b r : ℕ) → s < shape.segments → b < buckets → r < record_slots → SameSlot word other (bucket_at shape s b) r ⊎ IsVacated shape word other s b r)
        → KeepsTable shape word other }
    ensures metadata { (shape : Shape) (word : Words) (s b x : ℕ) → IsTable shape word → s < shape.segments → b < buckets
        → ((r : ℕ) → r < record_slots → KeepsOrVacates shape word s b x r) → KeepsTable shape word (with_word word (bucket_at shape s b + mark_place) x) }
{}

/// What the store of one word does to a record, in any slot of any bucket of any segment. A metadata word that takes the slot
/// where a record stands ready: of a key that stood nowhere, it gives this key the slot's value; of a key that stands elsewhere
/// with the same value, which is a copy, it keeps all pairs. A metadata word that frees the slot: of a key that stands elsewhere
/// too, it keeps all pairs; of one that stands nowhere else, it leaves this key nothing. A value: it gives the key, which stands
/// nowhere else, that value. Copy and clear ask for no owner.
pub fn changes_of_a_record()
    ensures insert { (shape : Shape) (word : Words) (s b r k x : ℕ) → IsTable shape word → IsReadyAt shape word s b r k
        → owner_of shape word (key_hash shape k) ≡ Some s → HasNone shape word s k
        → SameButSlot r (word (bucket_at shape s b + mark_place)) x → allocated r x ≡ 1 → StandsAt shape b k (member r x)
        → ChangesKey shape word (with_word word (bucket_at shape s b + mark_place) x) k (Some (value_in word (bucket_at shape s b) r)) }
    ensures copy { (shape : Shape) (word : Words) (s b r c t k x : ℕ) → IsTable shape word → IsReadyAt shape word s b r k
        → Hit shape word s c t k → value_in word (bucket_at shape s b) r ≡ value_in word (bucket_at shape s c) t
        → SameButSlot r (word (bucket_at shape s b + mark_place)) x → allocated r x ≡ 1 → StandsAt shape b k (member r x)
        → KeepsTable shape word (with_word word (bucket_at shape s b + mark_place) x) }
    ensures clear { (shape : Shape) (word : Words) (s b r c t k x : ℕ) → IsTable shape word → Hit shape word s b r k
        → Hit shape word s c t k → (c ≡ b → t ≡ r → ⊥)
        → SameButSlot r (word (bucket_at shape s b + mark_place)) x → allocated r x ≡ 0
        → KeepsTable shape word (with_word word (bucket_at shape s b + mark_place) x) }
    ensures update { (shape : Shape) (word : Words) (s b r k x : ℕ) → IsTable shape word → Hit shape word s b r k
        → owner_of shape word (key_hash shape k) ≡ Some s → HasOnly shape word s b r k
        → ChangesKey shape word (with_word word (value_at shape s b r) x) k (Some x) }
    ensures remove { (shape : Shape) (word : Words) (s b r k x : ℕ) → IsTable shape word → Hit shape word s b r k
        → owner_of shape word (key_hash shape k) ≡ Some s → HasOnly shape word s b r k
        → SameButSlot r (word (bucket_at shape s b + mark_place)) x → allocated r x ≡ 0
        → ChangesKey shape word (with_word word (bucket_at shape s b + mark_place) x) k None }
{}

/// The stores that change no record: to the key or the value of a free slot; to word 2 or 3 of a bucket with the fingerprints of
/// the taken slots as they were; and of a word with the core that it had.
pub fn stores_beside_records()
    ensures key { (shape : Shape) (word : Words) (s b r x : ℕ) → IsTable shape word → s < shape.segments → b < buckets → r < record_slots
        → allocated r (word (bucket_at shape s b + mark_place)) ≡ 0 → KeepsTable shape word (with_word word (key_at shape s b r) x) }
    ensures value { (shape : Shape) (word : Words) (s b r x : ℕ) → IsTable shape word → s < shape.segments → b < buckets → r < record_slots
        → allocated r (word (bucket_at shape s b + mark_place)) ≡ 0 → KeepsTable shape word (with_word word (value_at shape s b r) x) }
    ensures low_fingers { (shape : Shape) (word : Words) (s b x : ℕ) → IsTable shape word → s < shape.segments → b < buckets
        → ((t : ℕ) → t < record_slots → IsTaken word (bucket_at shape s b) t
        → finger t x (word (bucket_at shape s b + rest_place)) ≡ finger t (word (bucket_at shape s b + fingers_place)) (word (bucket_at shape s b + rest_place)))
        → KeepsTable shape word (with_word word (bucket_at shape s b + fingers_place) x) }
    ensures high_fingers { (shape : Shape) (word : Words) (s b x : ℕ) → IsTable shape word → s < shape.segments → b < buckets
        → ((t : ℕ) → t < record_slots → IsTaken word (bucket_at shape s b) t
        → finger t (word (bucket_at shape s b + fingers_place)) x ≡ finger t (word (bucket_at shape s b + fingers_place)) (word (bucket_at shape s b + rest_place)))
        → KeepsTable shape word (with_word word (bucket_at shape s b + rest_place) x) }
    ensures same_core { (shape : Shape) (word : Words) (i x : ℕ) → IsTable shape word → core_of shape i x ≡ core_of shape i (word i)
        → KeepsTable shape word (with_word word i x) }
{}

/// Whether words are a table of any number of segments, and what a key has there, depends on the cores of the image's words alone.
pub fn cores_of_the_image_decide()
    ensures table { (shape : Shape) (word other : Words) → ((i : ℕ) → i < words_of shape → core shape word i ≡ core shape other i) → IsTable shape word → IsTable shape other }
    ensures pairs { (shape : Shape) (word other : Words) → ((i : ℕ) → i < words_of shape → core shape word i ≡ core shape other i)
        → (k : ℕ) → find shape other k ≡ find shape word k }
{}

/// What a key has in two tables is the same where one segment owns it in both, and the buckets where it may stand have the same
/// cores: its home, its probing bucket, and each stash bucket but one where it stands in neither table.
pub fn places_of_a_key_decide()
    ensures { (shape : Shape) (word other : Words) (s k : ℕ) → IsTable shape word → IsTable shape other
        → owner_of shape word (key_hash shape k) ≡ Some s → owner_of shape other (key_hash shape k) ≡ Some s
        → SameCoresIn shape word other s (home_of (key_hash shape k)) → SameCoresIn shape word other s (probing_of (home_of (key_hash shape k)))
        → ((c : ℕ) → c < stash_buckets
        → SameCoresIn shape word other s (stash_bucket c) ⊎ (HasNoneIn shape word s (stash_bucket c) k × HasNoneIn shape other s (stash_bucket c) k))
        → find shape other k ≡ find shape word k }
{}
