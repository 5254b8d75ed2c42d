//! The laws of the structure. The functions do nothing: each stands for the law that its contract says.

ghost use Rattle.std.specs.Prelude.{◌≡◌, ◌≢◌, ◌↔◌, ℕ, ◌+◌, ◌^◌, ◌<◌, ◌≤◌, Option, None, Some};
ghost use Rattle.trace.specs.Events.{with_word};
ghost use Rattle.hash_word.specs.Hash.{index_of, hash_bits, most_depth};
ghost use Rattle.sound_image.specs.Places.{Shape, IsShape, block, buckets, root_word, state_word, entries_of, depth_below, entry_at, header_word, link_word, bucket_at, words_of};
ghost use Rattle.sound_image.specs.Segments.{ImageWords, Frame, frame_of, depth_at, IsLive, CoversHash, IsLiveFor, Owns, InOneSide, IsReadySide, HasReadySide};
ghost use Rattle.segment_table.specs.Claims.{Claims, ClaimsNoOneSide, ClaimsOneSide, IsSideEntry, IsSoundFrame, HasSoundFrame, FollowsFrameRules};
ghost use Rattle.segment_table.specs.Owner.{owner};
ghost use Rattle.segment_table.specs.Media.{IsSteady};
ghost use Rattle.segment_table.specs.Stores.{Keeps, HandsOver, TakesSlot, FreesSlot, Links, BeginsSplit, GoesLive, NamesClaimer, NamesSide, EndsSplit, DropsSplit, Renews, Opens};
ghost use Rattle.segment_table.specs.Stores.{Doubles, IsFrameWord, StoreKeeps, StoreHandsOver};
ghost use Rattle.segment_table.specs.Pairs.{HashesFit, IsCopied, StoreKeepsPairs};

/// The rules of a sound image about headers, links and the directory say the same as that each hash has one claimer, to
/// which its entry leads.
pub fn rules_are_local()
    ensures { (shape : Shape) (word : ImageWords) → IsShape shape → FollowsFrameRules shape word ↔ HasSoundFrame shape word }
{}

/// In a sound frame the segment that claims a hash is its owner, and the owner is what is computed, which looks at headers alone.
pub fn owners_are_computed()
    ensures claimer { (greatest : ℕ) (frame : Frame) → greatest ≤ most_depth → IsSoundFrame greatest frame → (s h : ℕ) → h < 2 ^ 64 → Claims frame s h ↔ Owns frame s h }
    ensures computed { (greatest : ℕ) (frame : Frame) → greatest ≤ most_depth → IsSoundFrame greatest frame → (s h : ℕ) → h < 2 ^ 64
        → Owns frame s h ↔ (owner frame h ≡ Some s) }
    ensures every { (greatest : ℕ) (frame : Frame) → greatest ≤ most_depth → IsSoundFrame greatest frame → (h : ℕ) → h < 2 ^ 64 → owner frame h ≢ None }
    ensures headers { (frame other : Frame) (h : ℕ) → other.segments ≡ frame.segments → ((s : ℕ) → s < frame.segments → other.header s ≡ frame.header s)
        → owner other h ≡ owner frame h }
{}

/// A live segment has a ready side exactly where it claims no hash of its 1-side, and has none exactly where it claims each.
pub fn claims_tell_ready_sides()
    ensures ready { (greatest : ℕ) (frame : Frame) → greatest ≤ most_depth → IsSoundFrame greatest frame → (s : ℕ) → s < frame.segments → IsLive frame s
        → HasReadySide frame s ↔ ClaimsNoOneSide frame s }
    ensures unready { (greatest : ℕ) (frame : Frame) → greatest ≤ most_depth → IsSoundFrame greatest frame → (s : ℕ) → s < frame.segments → IsLive frame s
        → (HasReadySide frame s → ⊥) ↔ ClaimsOneSide frame s }
{}

/// The entries of the 1-side of a segment stand in a row, where the root is deeper than the segment.
pub fn side_entries_stand_in_a_row()
    ensures { (frame : Frame) (s h : ℕ) → depth_at frame s < frame.root → frame.root ≤ hash_bits
        → InOneSide frame s h ↔ IsSideEntry frame s (index_of frame.root h) }
{}

/// A free slot becomes new, and a new one free.
pub fn slots_are_taken_and_freed()
    ensures takes { (shape : Shape) (word : ImageWords) → IsShape shape → HasSoundFrame shape word → (n x : ℕ) → TakesSlot (frame_of shape word) shape.depth n x
        → StoreKeeps shape word (header_word shape n) x }
    ensures frees { (shape : Shape) (word : ImageWords) → IsShape shape → HasSoundFrame shape word → (n x : ℕ) → FreesSlot (frame_of shape word) n x
        → StoreKeeps shape word (header_word shape n) x }
{}

/// The link of a segment that is not splitting names another slot, or none.
pub fn links_are_stored()
    ensures { (shape : Shape) (word : ImageWords) → IsShape shape → HasSoundFrame shape word → (s l : ℕ) → Links (frame_of shape word) s l
        → StoreKeeps shape word (link_word shape s) l }
{}

/// A normal segment becomes splitting.
pub fn splits_begin()
    ensures { (shape : Shape) (word : ImageWords) → IsShape shape → HasSoundFrame shape word → (s x : ℕ) → BeginsSplit (frame_of shape word) s x
        → StoreKeeps shape word (header_word shape s) x }
{}

/// The root becomes one deeper, over an area that names for each entry what the entry above it names.
pub fn directories_double()
    ensures { (shape : Shape) (word : ImageWords) → IsShape shape → HasSoundFrame shape word → Doubles shape word
        → StoreKeeps shape word root_word (depth_below (word root_word)) }
{}

/// The side of a splitting segment becomes live, and takes the hashes of the 1-side, and no others.
pub fn sides_go_live()
    ensures { (shape : Shape) (word : ImageWords) → IsShape shape → HasSoundFrame shape word → (s n x : ℕ) → GoesLive (frame_of shape word) s n x
        → StoreHandsOver shape word s n (header_word shape n) x }
{}

/// In a split, an entry names the segment that claims its hashes.
pub fn splits_name_claimers()
    ensures { (shape : Shape) (word : ImageWords) → IsShape shape → HasSoundFrame shape word → (i n : ℕ) → NamesClaimer (frame_of shape word) i n
        → StoreKeeps shape word (entry_at (word root_word) i) n }
{}

/// A splitting segment becomes normal and one deeper, when each entry of its 1-side names a deeper segment.
pub fn splits_end()
    ensures { (shape : Shape) (word : ImageWords) → IsShape shape → HasSoundFrame shape word → (s x : ℕ) → EndsSplit (frame_of shape word) s x
        → StoreKeeps shape word (header_word shape s) x }
{}

/// In a repair, an entry of the 1-side of a segment names its ready side, where it named no deeper segment.
pub fn repairs_name_sides()
    ensures { (shape : Shape) (word : ImageWords) → IsShape shape → HasSoundFrame shape word → (s n i : ℕ) → NamesSide (frame_of shape word) s n i
        → StoreKeeps shape word (entry_at (word root_word) i) n }
{}

/// A splitting segment without a ready side becomes normal, as deep as it was.
pub fn splits_are_dropped()
    ensures { (shape : Shape) (word : ImageWords) → IsShape shape → HasSoundFrame shape word → (s x : ℕ) → DropsSplit (frame_of shape word) s x
        → StoreKeeps shape word (header_word shape s) x }
{}

/// A repair ends with a header of the image's version; a restart stores the state word, and may set version bytes to 0 before.
pub fn versions_are_stored()
    ensures byte { (shape : Shape) (word : ImageWords) → IsShape shape → HasSoundFrame shape word → (s x : ℕ) → Renews (frame_of shape word) s x
        → StoreKeeps shape word (header_word shape s) x }
    ensures state { (shape : Shape) (word : ImageWords) → IsShape shape → HasSoundFrame shape word → (x : ℕ) → Opens (frame_of shape word) x
        → StoreKeeps shape word state_word x }
{}

/// A store to any other word leaves the frame as it is: to an entry of another area, to a bucket, to a word behind the image.
pub fn other_words_are_apart()
    ensures apart { (shape : Shape) (word : ImageWords) → IsShape shape → HasSoundFrame shape word → (i x : ℕ) → (IsFrameWord shape word i → ⊥)
        → StoreKeeps shape word i x }
    ensures areas { (shape : Shape) (word : ImageWords) → IsShape shape → HasSoundFrame shape word → (e i : ℕ) → e ≤ shape.depth → i < entries_of e → e ≢ word root_word
        → IsFrameWord shape word (entry_at e i) → ⊥ }
    ensures buckets { (shape : Shape) (word : ImageWords) → IsShape shape → HasSoundFrame shape word → (s b n : ℕ) → b < buckets → n < block
        → IsFrameWord shape word (bucket_at shape s b + n) → ⊥ }
    ensures behind { (shape : Shape) (word : ImageWords) → IsShape shape → HasSoundFrame shape word → (i : ℕ) → words_of shape ≤ i → IsFrameWord shape word i → ⊥ }
{}

/// A store that keeps the claims adds none, and each hash has the owner that it had; one that hands a side over moves the owners of
/// the 1-side, and no others.
pub fn owners_stay_or_move()
    ensures claims { (greatest : ℕ) (before after : Frame) → greatest ≤ most_depth → IsSoundFrame greatest before → Keeps greatest before after
        → (s h : ℕ) → h < 2 ^ 64 → Claims after s h → Claims before s h }
    ensures stay { (greatest : ℕ) (before after : Frame) → greatest ≤ most_depth → IsSoundFrame greatest before → Keeps greatest before after
        → (h : ℕ) → h < 2 ^ 64 → owner after h ≡ owner before h }
    ensures moves { (greatest : ℕ) (before after : Frame) → greatest ≤ most_depth → IsSoundFrame greatest before → (s n : ℕ) → HandsOver greatest before after s n
        → (h : ℕ) → h < 2 ^ 64 → InOneSide before s h → (owner before h ≡ Some s) × (owner after h ≡ Some n) }
    ensures others { (greatest : ℕ) (before after : Frame) → greatest ≤ most_depth → IsSoundFrame greatest before → (s n : ℕ) → HandsOver greatest before after s n
        → (h : ℕ) → h < 2 ^ 64 → (InOneSide before s h → ⊥) → owner after h ≡ owner before h }
{}

/// A store to a word of the frame that keeps the claims keeps the pairs; so does one that hands a side over, where the side has
/// the records of the 1-side.
pub fn pairs_stay()
    ensures kept { (shape : Shape) (word : ImageWords) → IsShape shape → HasSoundFrame shape word → HashesFit shape word → (i x : ℕ) → IsFrameWord shape word i
        → StoreKeeps shape word i x → StoreKeepsPairs shape word i x }
    ensures handed { (shape : Shape) (word : ImageWords) → IsShape shape → HasSoundFrame shape word → HashesFit shape word → (i x : ℕ) → IsFrameWord shape word i
        → (s n : ℕ) → StoreHandsOver shape word s n i x → IsCopied shape word s n → StoreKeepsPairs shape word i x }
{}

/// What is live in a medium is live in the newest words, begins there at the same hash, and is no less deep: of settled words, and
/// after each store, whether the medium has it or not.
pub fn media_are_steady()
    ensures settled { (frame : Frame) → IsSteady frame frame }
    ensures without { (medium newest later : Frame) → IsSteady medium newest → IsSteady newest later → IsSteady medium later }
    ensures has { (shape : Shape) (medium newest : ImageWords) (i x : ℕ) → IsSteady (frame_of shape medium) (frame_of shape newest)
        → IsSteady (frame_of shape (with_word medium i x)) (frame_of shape (with_word newest i x)) }
{}

/// Of a segment whose header and link are settled: a side that is ready in a medium is ready now, one that is ready now is so in
/// each medium where it lives, and a segment that is deeper now at a hash of the 1-side was so in each medium.
pub fn sides_are_ready_in_media()
    ensures now { (greatest : ℕ) (medium newest : Frame) → greatest ≤ most_depth → IsSoundFrame greatest medium → IsSoundFrame greatest newest → IsSteady medium newest
        → (s n : ℕ) → s < medium.segments → newest.header s ≡ medium.header s → newest.link s ≡ medium.link s → IsReadySide medium s n → IsReadySide newest s n }
    ensures there { (greatest : ℕ) (medium newest : Frame) → greatest ≤ most_depth → IsSoundFrame greatest medium → IsSoundFrame greatest newest → IsSteady medium newest
        → (s n : ℕ) → s < medium.segments → newest.header s ≡ medium.header s → newest.link s ≡ medium.link s → IsLive medium n → IsReadySide newest s n
        → IsReadySide medium s n }
    ensures deeper { (greatest : ℕ) (medium newest : Frame) → greatest ≤ most_depth → IsSoundFrame greatest medium → IsSoundFrame greatest newest → IsSteady medium newest
        → (s n h : ℕ) → s < medium.segments → newest.header s ≡ medium.header s → IsLive medium s → InOneSide medium s h → IsLiveFor medium h n → CoversHash newest n h
        → depth_at newest s < depth_at newest n → depth_at medium s < depth_at medium n }
{}
