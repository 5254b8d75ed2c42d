//! What stores keep of facts. The functions do nothing: each stands for the law that its contract says.

ghost use Rattle.std.specs.Prelude.{◌≡◌, ◌≢◌, ℕ, ◌+◌, ◌<◌, ◌≤◌};
ghost use Rattle.trace.specs.Events.{Words, with_word};
ghost use Rattle.image_layout.specs.Places.{Shape, most_depth, root_word, entries_of, depth_below, entry_at, header_word, link_word, bucket_at, block, buckets};
ghost use Rattle.bucket_words.specs.Segments.{Frame, frame_of};
ghost use Rattle.bucket_words.specs.Claims.{IsSoundFrame};
ghost use Rattle.bucket_words.specs.Stores.{TakesSlot, FreesSlot, Links, BeginsSplit, GoesLive, NamesClaimer, NamesSide, EndsSplit, DropsSplit, Renews};
ghost use Rattle.bucket_words.specs.Stores.{Doubles, IsFrameWord};
ghost use Rattle.frame_facts.specs.Facts.{Fact, Taken, IsNewSide};
ghost use Rattle.frame_facts.specs.Keeping.{Both, AreSound, HaveOneRoot, KeepsVersion, IsEntry, ClaimsNoneOfSide, FreesNone, KeepsFact, KeepsFacts, Spares};

/// A store that keeps the claims keeps every fact, where no current segment loses the version, the root does not fall, what an
/// entry is to name lives, and new sides stay; but that a slot is taken which it frees.
pub fn kept_claims_keep_facts()
    ensures { (shape : Shape) (version : ℕ) (words medium : Words) → AreSound shape words medium → (i x : ℕ) → Spares shape version words medium i x
        → (fact : Fact) → FreesNone shape medium i x fact → KeepsFact shape version words medium i x fact }
{}

/// The stores of a header keep every fact: of a slot that is taken, or freed, while no current segment splits to it, but that it is
/// taken; of a segment that begins, ends or drops a split, with the version that it had; of a version byte.
pub fn header_stores_keep_facts()
    ensures takes { (shape : Shape) (version : ℕ) (words medium : Words) → AreSound shape words medium → (n x : ℕ)
        → Both words medium (λ word. TakesSlot (frame_of shape word) shape.depth n x) → KeepsFacts shape version words medium (header_word shape n) x }
    ensures frees { (shape : Shape) (version : ℕ) (words medium : Words) → AreSound shape words medium → (n x : ℕ)
        → Both words medium (λ word. FreesSlot (frame_of shape word) n x) → ((s : ℕ) → IsNewSide (frame_of shape medium) version s n → ⊥)
        → (fact : Fact) → fact ≢ Taken n → KeepsFact shape version words medium (header_word shape n) x fact }
    ensures begins { (shape : Shape) (version : ℕ) (words medium : Words) → AreSound shape words medium → (s x : ℕ)
        → Both words medium (λ word. BeginsSplit (frame_of shape word) s x) → KeepsVersion shape version s x words → KeepsFacts shape version words medium (header_word shape s) x }
    ensures ends { (shape : Shape) (version : ℕ) (words medium : Words) → AreSound shape words medium → (s x : ℕ)
        → Both words medium (λ word. EndsSplit (frame_of shape word) s x) → KeepsVersion shape version s x words → KeepsFacts shape version words medium (header_word shape s) x }
    ensures drops { (shape : Shape) (version : ℕ) (words medium : Words) → AreSound shape words medium → (s x : ℕ)
        → Both words medium (λ word. DropsSplit (frame_of shape word) s x) → KeepsVersion shape version s x words
        → ((n : ℕ) → IsNewSide (frame_of shape medium) version s n → ⊥) → KeepsFacts shape version words medium (header_word shape s) x }
    ensures byte { (shape : Shape) (version : ℕ) (words medium : Words) → AreSound shape words medium → (s x : ℕ)
        → Both words medium (λ word. Renews (frame_of shape word) s x) → Both words medium (KeepsVersion shape version s x)
        → KeepsFacts shape version words medium (header_word shape s) x }
{}

/// A new side has one parent: so a slot that a segment of an older version splits to may be freed.
pub fn new_sides_have_one_parent()
    ensures { (greatest : ℕ) (frame : Frame) → greatest ≤ most_depth → IsSoundFrame greatest frame → (version other s t n : ℕ)
        → IsNewSide frame version s n → IsNewSide frame other t n → s ≡ t }
{}

/// The stores of a link, of the root, and of an entry of the root's area keep every fact.
pub fn directory_stores_keep_facts()
    ensures links { (shape : Shape) (version : ℕ) (words medium : Words) → AreSound shape words medium → (s l : ℕ)
        → Both words medium (λ word. Links (frame_of shape word) s l) → KeepsFacts shape version words medium (link_word shape s) l }
    ensures doubles { (shape : Shape) (version : ℕ) (words medium : Words) → AreSound shape words medium → HaveOneRoot shape words medium
        → Both words medium (Doubles shape) → KeepsFacts shape version words medium root_word (depth_below (words root_word)) }
    ensures claimer { (shape : Shape) (version : ℕ) (words medium : Words) → AreSound shape words medium → HaveOneRoot shape words medium → (i n : ℕ)
        → Both words medium (λ word. NamesClaimer (frame_of shape word) i n) → KeepsFacts shape version words medium (entry_at (words root_word) i) n }
    ensures side { (shape : Shape) (version : ℕ) (words medium : Words) → AreSound shape words medium → HaveOneRoot shape words medium → (s n i : ℕ)
        → Both words medium (λ word. NamesSide (frame_of shape word) s n i) → KeepsFacts shape version words medium (entry_at (words root_word) i) n }
{}

/// The store that makes a side live keeps every fact but those that its segment claims a hash of the 1-side.
pub fn live_sides_keep_facts()
    ensures { (shape : Shape) (version : ℕ) (words medium : Words) → AreSound shape words medium → (s n x : ℕ)
        → Both words medium (λ word. GoesLive (frame_of shape word) s n x) → (fact : Fact) → ClaimsNoneOfSide (frame_of shape medium) s fact
        → KeepsFact shape version words medium (header_word shape n) x fact }
{}

/// A store to any other word keeps every fact, if it is none to an entry of an area that a root has come to: so one to an entry of a
/// deeper area, and one to a bucket.
pub fn other_stores_keep_facts()
    ensures apart { (shape : Shape) (version : ℕ) (words medium : Words) → AreSound shape words medium → (i x : ℕ)
        → Both words medium (λ word. IsFrameWord shape word i → ⊥) → (IsEntry words i → ⊥) → KeepsFacts shape version words medium i x }
    ensures areas { (shape : Shape) (version : ℕ) (words medium : Words) → AreSound shape words medium → HaveOneRoot shape words medium → (e i x : ℕ)
        → words root_word < e → e ≤ shape.depth → i < entries_of e → KeepsFacts shape version words medium (entry_at e i) x }
    ensures buckets { (shape : Shape) (version : ℕ) (words medium : Words) → AreSound shape words medium → (s b n x : ℕ) → b < buckets → n < block
        → KeepsFacts shape version words medium (bucket_at shape s b + n) x }
{}
