//! A geometry is in range, no two parts of an image share a word, and the largest image has the numbers that are written out.

ghost use Rattle.image_layout.specs.Places.{IsShape};
ghost use Rattle.image_layout.specs.Parts.{PartsWithin, PartsApart};
ghost use Rattle.image_layout.specs.Largest.{LargestIsWrittenOut};

use crate::Geometry;

/// A geometry's three numbers are in their ranges.
pub fn shape_in_range(geometry: &Geometry)
    ensures { IsShape geometry.now }
{
    let _ = geometry.segments();
    let _ = geometry.depth();
    let _ = geometry.kind();
}

/// Each part of an image lies within its words.
pub fn parts_within()
    ensures { PartsWithin }
{}

/// Parts of an image with the same word number are the same part.
pub fn parts_apart()
    ensures { PartsApart }
{}

/// The numbers of the largest image that are written out are those that its shape gives.
pub fn largest_is_written_out()
    ensures { LargestIsWrittenOut }
{}
