//! How facts are learned, and what they depend on. The functions do nothing: each stands for the law that its contract says.

ghost use Rattle.std.specs.Prelude.{◌≡◌, ℕ, ◌+◌, ◌<◌, ◌≤◌};
ghost use Rattle.trace.specs.Events.{Words, with_word};
ghost use Rattle.hash_word.specs.Hash.{hash_bits, place_over};
ghost use Rattle.segment_head.specs.HeadWord.{HasLiveState, version_in, normal};
ghost use Rattle.image_layout.specs.Places.{Shape, IsShape, root_word, entries_of, entry_at, header_word};
ghost use Rattle.bucket_words.specs.Segments.{frame_of, state_at, depth_at, pattern_at, side_depth_at, side_pattern_at, IsReadySide, HasReadySide};
ghost use Rattle.bucket_words.specs.Claims.{IsSideEntry, HasSoundFrame};
ghost use Rattle.bucket_words.specs.Media.{first_hash, IsSteady};
ghost use Rattle.bucket_words.specs.Stores.{EntriesAreDeep, GoesLive, NamesClaimer, NamesSide};
ghost use Rattle.bucket_words.specs.Owners.{HasStructure};
ghost use Rattle.frame_facts.specs.Facts.{Fact, Lives, Current, Rooted, Owns, Lacks, Deep, Begins, IsLiveSlot, HoldsFact};
ghost use Rattle.frame_facts.specs.Keeping.{AreSound, HaveOneRoot, IsSettled};

/// Facts look at the structure alone: at the words before the first segment, and at those of headers.
pub fn facts_follow_the_structure()
    ensures { (shape : Shape) (version : ℕ) (words later medium other : Words) → AreSound shape words medium → HasStructure shape words later
        → HasStructure shape medium other → (fact : Fact) → HoldsFact shape version words fact medium → HoldsFact shape version later fact other }
{}

/// A header word that is live tells that its segment is current, if it has the image's version; and where a segment begins that lives
/// in the medium.
pub fn headers_tell()
    ensures current { (shape : Shape) (version : ℕ) (words medium : Words) (s : ℕ) → s < shape.segments → HasLiveState (words (header_word shape s))
        → version_in (words (header_word shape s)) ≡ version → HoldsFact shape version words (Current s) medium }
    ensures begins { (shape : Shape) (version : ℕ) (words medium : Words) (s : ℕ) → IsSteady (frame_of shape medium) (frame_of shape words)
        → HoldsFact shape version words (Lives s) medium → HoldsFact shape version words (Begins s (first_hash (frame_of shape words) s)) medium }
{}

/// A segment without a ready side, as a normal one is, owns all that it covers; one with a ready side lacks its 1-side. Where header and
/// link are settled, the newest words tell it of each medium.
pub fn sides_tell()
    ensures unready { (shape : Shape) (version : ℕ) (words medium : Words) (s : ℕ) → IsLiveSlot (frame_of shape medium) s → (HasReadySide (frame_of shape medium) s → ⊥)
        → HoldsFact shape version words (Owns s (depth_at (frame_of shape medium) s) (pattern_at (frame_of shape medium) s)) medium }
    ensures normal { (shape : Shape) (version : ℕ) (words medium : Words) (s : ℕ) → s < shape.segments → state_at (frame_of shape medium) s ≡ normal
        → HoldsFact shape version words (Owns s (depth_at (frame_of shape medium) s) (pattern_at (frame_of shape medium) s)) medium }
    ensures ready { (shape : Shape) (version : ℕ) (words medium : Words) (s : ℕ) → IsLiveSlot (frame_of shape medium) s → HasReadySide (frame_of shape medium) s
        → HoldsFact shape version words (Lacks s (side_depth_at (frame_of shape medium) s) (side_pattern_at (frame_of shape medium) s)) medium }
    ensures unready_now { (shape : Shape) (version : ℕ) (words medium : Words) → AreSound shape words medium → IsSteady (frame_of shape medium) (frame_of shape words)
        → (s : ℕ) → IsLiveSlot (frame_of shape medium) s → IsSettled shape words medium s → (HasReadySide (frame_of shape words) s → ⊥)
        → HoldsFact shape version words (Owns s (depth_at (frame_of shape medium) s) (pattern_at (frame_of shape medium) s)) medium }
    ensures ready_now { (shape : Shape) (version : ℕ) (words medium : Words) → AreSound shape words medium → IsSteady (frame_of shape medium) (frame_of shape words)
        → (s n : ℕ) → IsLiveSlot (frame_of shape medium) s → IsSettled shape words medium s → IsReadySide (frame_of shape words) s n
        → HoldsFact shape version words (Lives n) medium
        → HoldsFact shape version words (Lacks s (side_depth_at (frame_of shape medium) s) (side_pattern_at (frame_of shape medium) s)) medium }
{}

/// When a side goes live, it owns the 1-side, and its segment lacks it.
pub fn live_sides_tell()
    ensures owns { (shape : Shape) (version : ℕ) (words medium : Words) → IsShape shape → HasSoundFrame shape medium → (s n x : ℕ) → GoesLive (frame_of shape medium) s n x
        → HoldsFact shape version words (Owns n (side_depth_at (frame_of shape medium) s) (side_pattern_at (frame_of shape medium) s))
        (with_word medium (header_word shape n) x) }
    ensures lacks { (shape : Shape) (version : ℕ) (words medium : Words) → IsShape shape → HasSoundFrame shape medium → (s n x : ℕ) → GoesLive (frame_of shape medium) s n x
        → HoldsFact shape version words (Lacks s (side_depth_at (frame_of shape medium) s) (side_pattern_at (frame_of shape medium) s))
        (with_word medium (header_word shape n) x) }
{}

/// What is so of a region is so of each part of it, whose pattern has some bits more; and what entries of all its parts name is as deep
/// as each of them says.
pub fn regions_have_parts()
    ensures owns { (shape : Shape) (version : ℕ) (words medium : Words) (s d k p q : ℕ) → d + k ≤ hash_bits → place_over k q ≡ p
        → HoldsFact shape version words (Owns s d p) medium → HoldsFact shape version words (Owns s (d + k) q) medium }
    ensures lacks { (shape : Shape) (version : ℕ) (words medium : Words) (s d k p q : ℕ) → d + k ≤ hash_bits → place_over k q ≡ p
        → HoldsFact shape version words (Lacks s d p) medium → HoldsFact shape version words (Lacks s (d + k) q) medium }
    ensures deep { (shape : Shape) (version : ℕ) (words medium : Words) (f d k p q : ℕ) → d + k ≤ hash_bits → place_over k q ≡ p
        → HoldsFact shape version words (Deep f d p) medium → HoldsFact shape version words (Deep f (d + k) q) medium }
    ensures joined { (shape : Shape) (version : ℕ) (words medium : Words) (f d k p : ℕ) → d + k ≤ hash_bits
        → ((q : ℕ) → q < entries_of (d + k) → place_over k q ≡ p → HoldsFact shape version words (Deep f (d + k) q) medium) → HoldsFact shape version words (Deep f d p) medium }
{}

/// The root tells that what its area's entries name lives, if what lives now lives in the medium; such an entry tells a live segment, and
/// how deep that is. That it is deeper now than a segment whose header is settled, at a hash of its 1-side, it tells of each medium.
pub fn entries_tell()
    ensures root { (shape : Shape) (version : ℕ) (words medium : Words) → IsShape shape → HasSoundFrame shape words
        → ((s : ℕ) → IsLiveSlot (frame_of shape words) s → IsLiveSlot (frame_of shape medium) s) → HoldsFact shape version words (Rooted (words root_word)) medium }
    ensures lives { (shape : Shape) (version : ℕ) (words medium : Words) (e i : ℕ) → HoldsFact shape version words (Rooted e) medium → i < entries_of e
        → HoldsFact shape version words (Lives (words (entry_at e i))) medium }
    ensures deep { (shape : Shape) (version : ℕ) (words medium : Words) (f i : ℕ) → f < depth_at (frame_of shape medium) (medium (entry_at (medium root_word) i))
        → HoldsFact shape version words (Deep f (medium root_word) i) medium }
    ensures deep_now { (shape : Shape) (version : ℕ) (words medium : Words) → AreSound shape words medium → IsSteady (frame_of shape medium) (frame_of shape words)
        → HaveOneRoot shape words medium → (s i : ℕ) → IsLiveSlot (frame_of shape medium) s → words (header_word shape s) ≡ medium (header_word shape s)
        → depth_at (frame_of shape medium) s < words root_word → IsSideEntry (frame_of shape medium) s i
        → words (entry_at (words root_word) i) ≡ medium (entry_at (words root_word) i)
        → depth_at (frame_of shape words) s < depth_at (frame_of shape words) (words (entry_at (words root_word) i))
        → HoldsFact shape version words (Deep (depth_at (frame_of shape medium) s) (words root_word) i) medium }
{}

/// What facts say is what stores must find: a segment that lacks its 1-side has a ready side, and one that owns it has none; that the entries
/// of a 1-side are deep; that a slot claims the hashes of an entry; and that an entry of a 1-side may be mended, which names a segment that
/// begins no later than the one that is repaired.
pub fn facts_allow_stores()
    ensures ready { (shape : Shape) (version : ℕ) (words medium : Words) → IsShape shape → HasSoundFrame shape medium → (s : ℕ)
        → HoldsFact shape version words (Lacks s (side_depth_at (frame_of shape medium) s) (side_pattern_at (frame_of shape medium) s)) medium
        → HasReadySide (frame_of shape medium) s }
    ensures unready { (shape : Shape) (version : ℕ) (words medium : Words) → IsShape shape → HasSoundFrame shape medium → (s : ℕ)
        → IsLiveSlot (frame_of shape medium) s
        → HoldsFact shape version words (Owns s (side_depth_at (frame_of shape medium) s) (side_pattern_at (frame_of shape medium) s)) medium
        → HasReadySide (frame_of shape medium) s → ⊥ }
    ensures deep { (shape : Shape) (version : ℕ) (words medium : Words) (s : ℕ)
        → HoldsFact shape version words
        (Deep (depth_at (frame_of shape medium) s) (side_depth_at (frame_of shape medium) s) (side_pattern_at (frame_of shape medium) s)) medium
        → EntriesAreDeep (frame_of shape medium) s }
    ensures claimer { (shape : Shape) (version : ℕ) (words medium : Words) (n d k p i : ℕ) → medium root_word ≡ d + k → d + k ≤ hash_bits → i < entries_of (medium root_word) → place_over k i ≡ p
        → HoldsFact shape version words (Owns n d p) medium → NamesClaimer (frame_of shape medium) i n }
    ensures side { (shape : Shape) (version : ℕ) (words medium : Words) → IsShape shape → HasSoundFrame shape medium → (s n i b : ℕ)
        → IsReadySide (frame_of shape medium) s n → s < shape.segments → i < entries_of (medium root_word) → IsSideEntry (frame_of shape medium) s i
        → HoldsFact shape version words (Begins (medium (entry_at (medium root_word) i)) b) medium → b ≤ first_hash (frame_of shape medium) s
        → NamesSide (frame_of shape medium) s n i }
{}
