//! A law about the words of images. The function does nothing: it stands for the law that its contract says.

ghost use Rattle.std.specs.Prelude.{◌↔◌, ℕ, Option};
ghost use Rattle.image_layout.specs.Places.{Shape};
ghost use Rattle.sound_image.specs.Segments.{ImageWords, frame_of, Owns};
ghost use Rattle.sound_image.specs.Records.{HasPair, HasAt};
ghost use Rattle.sound_image.specs.Rules.{RecordsStandRight, KeysHaveOneValue};
ghost use Rattle.sound_image.specs.Agreement.{AgreeButForLocksAndOverflow};

/// Images that agree but for locks and overflow parts have the same owners and pairs, and follow rules 4 and 5 alike.
pub fn locks_and_overflow_apart()
    ensures owners { (shape : Shape) (word other : ImageWords) → AgreeButForLocksAndOverflow shape word other
        → (s h : ℕ) → Owns (frame_of shape word) s h ↔ Owns (frame_of shape other) s h }
    ensures pairs { (shape : Shape) (word other : ImageWords) → AgreeButForLocksAndOverflow shape word other
        → (k v : ℕ) → HasPair shape word k v ↔ HasPair shape other k v }
    ensures at_keys { (shape : Shape) (word other : ImageWords) → AgreeButForLocksAndOverflow shape word other
        → (k : ℕ) (a : Option ℕ) → HasAt shape word k a ↔ HasAt shape other k a }
    ensures rule_4 { (shape : Shape) (word other : ImageWords) → AgreeButForLocksAndOverflow shape word other
        → (w : ℕ) → RecordsStandRight shape word w ↔ RecordsStandRight shape other w }
    ensures rule_5 { (shape : Shape) (word other : ImageWords) → AgreeButForLocksAndOverflow shape word other
        → (w : ℕ) → KeysHaveOneValue shape word w ↔ KeysHaveOneValue shape other w }
{}
