//! Why an attempt ended without a reply.

/// Why an attempt ended and is to be made again.
#[derive(Clone, Copy, Debug, PartialEq, Eq)]
pub enum Why {
    /// A lock or guard was taken.
    Busy {
        /// The number of its word.
        word: u64,
        /// The value that was seen.
        seen: u64,
    },
    /// A word was changed between two looks at it; or it is a header that is as it was and leads away from the key, so that both
    /// values are the same.
    Moved {
        /// The number of the word.
        word: u64,
        /// The value that was seen first.
        before: u64,
        /// The value that was seen then.
        after: u64,
    },
}
