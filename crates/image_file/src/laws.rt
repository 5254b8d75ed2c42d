//! What is read of a file that was written is what was written.

ghost use Rattle.std.specs.Prelude.{◌≡◌, IfOk, IfErr};
ghost use Rattle.sound_image.specs.Image.{IsSoundImage};

use crate::fault::ImageFault;
use crate::medium::{Medium, to_bytes};
use crate::read::from_bytes;
use std::alloc::Global;

/// What is read of the file of a sound image is that image.
///
/// # Errors
///
/// `NoMemory` if memory runs out.
pub fn read_of_written(alloc: Global, medium: &Medium) -> Result<Medium, ImageFault>
    requires sound { IsSoundImage medium.now.geometry medium.now.words }
    ensures words { IfOk result (λ other. other.words ≡ medium.now.words) }
    ensures geometry { IfOk result (λ other. other.geometry ≡ medium.now.geometry) }
    ensures fault { IfErr result (λ fault. fault ≡ ImageFault.NoMemory) }
{
    match to_bytes(alloc, medium) {
        Ok(bytes) => from_bytes(alloc, &bytes),
        Err(_) => Err(ImageFault::NoMemory),
    }
}
