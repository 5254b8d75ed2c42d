//! The words of the note of a record that stands in the stash.

/// Which of the words of a note is to be stored next.
#[derive(Clone, Copy)]
pub enum NoteWord {
    /// The metadata word.
    Mark,
    /// The word behind it that has the fingerprint of the note.
    Fingers,
}
