//! Which rule is broken first.

ghost use Rattle.std.specs.Prelude.{◌≡◌, ℕ, IfOk, IfSome, IfNone, length, slice_index};
ghost use Rattle.image_layout.specs.Places.{words_of};
ghost use Rattle.image_rules.specs.declared.breach.Rule.{Rule};
ghost use Rattle.image_rules.specs.Divided.{IsDivided};
ghost use Rattle.image_rules.specs.Breach.{number_of, HoldsAt, IsFirstBreach};

use crate::directory::rule_three;
use crate::leaves::rule_two;
use crate::repaired::rule_seven;
use crate::rules::{rule_five, rule_four, rule_one, rule_six};
use crate::sound_segments::are_sound_segments;
use image_layout::{Geometry, shape_in_range};
use map_model::NoMemory;
use std::alloc::Global;
use std::fmt;
use word_bits::each_fits;

/// The rules of a sound image. A rule is told by its number.
#[derive(Clone, Copy, Debug, PartialEq, Eq)]
pub enum Rule {
    /// Rule 1: the numbers of the image and of its headers are in their ranges.
    Numbers,
    /// Rule 2: each hash has one owner, beside segments that are splitting it off.
    Owners,
    /// Rule 3: the entries of the directory lead to the owners.
    Entries,
    /// Rule 4: a record in its owner stands where it is looked for, with its fingerprint.
    Records,
    /// Rule 5: a key that stands twice in its owner has one value.
    Values,
    /// Rule 6: no segment's version is above the image's.
    Versions,
    /// Rule 7: a clean image is repaired.
    Repaired,
}

impl Rule {
    /// Its number, 1 to 7.
    pub fn number(self) -> u8
        ensures { result ≡ number_of self }
    {
        match self {
            Rule::Numbers => 1,
            Rule::Owners => 2,
            Rule::Entries => 3,
            Rule::Records => 4,
            Rule::Values => 5,
            Rule::Versions => 6,
            Rule::Repaired => 7,
        }
    }
}

impl fmt::Display for Rule {
    fn fmt<W: fmt::Write>(&self, f: &mut fmt::Formatter<W>) -> fmt::Result {
        let number = self.number();
        write!(f, "{number}")
    }
}

/// A rule, and the word at which it is broken.
#[derive(Clone, Copy, Debug, PartialEq, Eq)]
pub struct Breach {
    /// The rule.
    pub rule: Rule,
    /// The number of the word.
    pub word: u64,
}

/// The first breach of rules 3 to 7, of an image that follows those before them. One pass tells whether there is one of
/// rules 4 to 7, and only where it does not say that there is none they are looked at one by one.
fn later_breach(geometry: &Geometry, words: &[u64]) -> Option<Breach>
    requires whole { length words.now ≡ words_of geometry.now }
    requires divided { IsDivided geometry.now (slice_index words.now) }
    ensures none { IfNone result ((r : Rule) (w : ℕ) → HoldsAt geometry.now (slice_index words.now) r w) }
    ensures some { IfSome result (λ breach. IsFirstBreach geometry.now (slice_index words.now) breach.rule breach.word) }
{
    if let Some(word) = rule_three(geometry, words) {
        return Some(Breach {
            rule: Rule::Entries,
            word,
        });
    }
    if are_sound_segments(geometry, words) {
        return None;
    }
    if let Some(word) = rule_four(geometry, words) {
        return Some(Breach {
            rule: Rule::Records,
            word,
        });
    }
    if let Some(word) = rule_five(geometry, words) {
        return Some(Breach {
            rule: Rule::Values,
            word,
        });
    }
    if let Some(word) = rule_six(geometry, words) {
        return Some(Breach {
            rule: Rule::Versions,
            word,
        });
    }
    if let Some(word) = rule_seven(geometry, words) {
        return Some(Breach {
            rule: Rule::Repaired,
            word,
        });
    }
    None
}

/// The first broken rule, in the order of their numbers, and the least word at which it is broken.
///
/// # Errors
///
/// `NoMemory` if memory runs out.
pub fn first_breach(
    alloc: Global,
    geometry: &Geometry,
    words: &[u64],
) -> Result<Option<Breach>, NoMemory>
    requires whole { length words.now ≡ words_of geometry.now }
    ensures none { IfOk result (λ found. IfNone found ((r : Rule) (w : ℕ) → HoldsAt geometry.now (slice_index words.now) r w)) }
    ensures some { IfOk result (λ found. IfSome found (λ breach. IsFirstBreach geometry.now (slice_index words.now) breach.rule breach.word)) }
{
    if let Some(word) = rule_one(geometry, words) {
        return Ok(Some(Breach {
            rule: Rule::Numbers,
            word,
        }));
    }
    shape_in_range(geometry);
    each_fits(words);
    if let Some(word) = rule_two(alloc, geometry, words)? {
        return Ok(Some(Breach {
            rule: Rule::Owners,
            word,
        }));
    }
    Ok(later_breach(geometry, words))
}
