//! What the functions of this crate make together. The functions here do nothing: each stands for the law that its contract says.

ghost use Rattle.std.specs.Prelude.{◌≡◌, ℕ, ◌^◌, ◌<◌, ◌≤◌, ◌⊎◌, ◌↔◌, IsTrue, List, [], length, Contains};
ghost use Rattle.bucket_meta.specs.Bucket.{mark_place, record_slots};
ghost use Rattle.bucket_meta.specs.Marks.{copied_mark, cleared_mark};
ghost use Rattle.sound_image.specs.Segments.{ImageWords};
ghost use Rattle.sound_image.specs.Records.{word_in, slot_key, HasRecord};
ghost use Rattle.whole_segment.specs.Slots.{IsSetOf, AreHalves};
ghost use Rattle.image_layout.specs.Places.{Shape, buckets};
ghost use Rattle.whole_segment.specs.Records.{Stands, IsCovered, covered_set, AreSides};
ghost use Rattle.whole_segment.specs.Mending.{IsSpoiled, spoiled_set, AreSpoiled, IsMended, without_spoiled};
ghost use Rattle.whole_segment.specs.Room.{HasNoRoom, has_no_room};
ghost use Rattle.whole_segment.specs.Rounds.{most_lines, takes, touched, Settles, AscendsFrom, FlushesAscend, rounds};

/// A metadata word with some slots alone and the one without them have each slot once, and the second keeps the overflow notes.
pub fn marks_are_halves()
    ensures { (w1 slots : ℕ) → w1 < 2 ^ 64 → slots < 2 ^ record_slots → AreHalves w1 slots (copied_mark w1 slots) (cleared_mark w1 slots) }
{}

/// Where each bucket's copy has the slots that a segment of this depth and pattern covers alone, and its rest is without them, each record
/// stands in one of the two: the copies have those that are covered, and the rests the others.
pub fn segments_are_halved()
    ensures { (first covered : ℕ → ℕ) (key : ℕ → ℕ → ℕ) (hash : ℕ → ℕ) (depth pattern : ℕ)
        → ((b : ℕ) → first b < 2 ^ 64) → ((b : ℕ) → b < buckets → IsSetOf (IsCovered first key hash depth pattern b) (covered b))
        → AreSides first (λ b. copied_mark (first b) (covered b)) (λ b. cleared_mark (first b) (covered b)) key hash depth pattern }
{}

/// The tests are true where what they test holds, and the sets have what passes them.
pub fn tests_tell()
    ensures covered { (first : ℕ → ℕ) (key : ℕ → ℕ → ℕ) (hash : ℕ → ℕ) (depth pattern b : ℕ)
        → IsSetOf (IsCovered first key hash depth pattern b) (covered_set first key hash depth pattern b) }
    ensures spoiled { (first : ℕ → ℕ) (key : ℕ → ℕ → ℕ) (hash : ℕ → ℕ) (depth pattern b : ℕ)
        → IsSetOf (IsSpoiled first key hash depth pattern b) (spoiled_set first key hash depth pattern b) }
    ensures room { (first : ℕ → ℕ) (home : ℕ) → IsTrue (has_no_room first home) ↔ HasNoRoom first home }
{}

/// A segment whose spoiled slots are cleared has records that it covers alone, and has kept of each key the first. Each key stands once
/// then, where each record that it covers stood where its key is looked for.
pub fn repairs_mend()
    ensures { (first spoiled : ℕ → ℕ) (key : ℕ → ℕ → ℕ) (hash : ℕ → ℕ) (depth pattern : ℕ)
        → ((b : ℕ) → first b < 2 ^ 64) → AreSpoiled first key hash depth pattern spoiled
        → IsMended first (without_spoiled first spoiled) key hash depth pattern }
{}

/// Stores in rounds are all made, in their order; each line is flushed after its last store and fenced; and at most eight lines are
/// flushed and not fenced. Where the stores ascend, so do the flushes of each round, and each line is flushed once in it.
pub fn rounds_settle()
    ensures settles { (stores : List ℕ) → Settles stores (rounds [] stores) }
    ensures ascending { (stores : List ℕ) → AscendsFrom 0 stores → FlushesAscend 0 (rounds [] stores) }
{}

/// A round that a line is touched in has that line and those that it had, and no others; and where it takes the line, they are at most eight.
pub fn rounds_keep_their_lines()
    ensures here { (lines : List ℕ) (line : ℕ) → Contains (touched lines line) line }
    ensures others { (lines : List ℕ) (line other : ℕ) → Contains lines other → Contains (touched lines line) other }
    ensures none_else { (lines : List ℕ) (line other : ℕ) → Contains (touched lines line) other → Contains lines other ⊎ (line ≡ other) }
    ensures few { (lines : List ℕ) (line : ℕ) → length lines ≤ most_lines → IsTrue (takes lines line) → length (touched lines line) ≤ most_lines }
{}

/// By the words of a segment of an image, a record that stands is a record of the image.
pub fn loaded_segments_are_of_images()
    ensures { (shape : Shape) (word : ImageWords) (s b r k : ℕ) → s < shape.segments
        → Stands (λ c. word_in shape word s c mark_place) (λ c t. slot_key shape word s c t) b r k ↔ (HasRecord shape word s b r × (slot_key shape word s b r ≡ k)) }
{}
