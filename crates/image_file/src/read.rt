//! Bytes that are looked at as the file of an image.

ghost use Rattle.std.specs.Prelude.{List, ◌≡◌, ℕ, ◌%◌, ◌≤◌, length, IfOk, IfErr};
ghost use Rattle.image_layout.specs.Places.{front_words};
ghost use Rattle.sound_image.specs.Image.{word_bytes, image_bytes, IsSoundImage};
ghost use Rattle.image_file.specs.Front.{BeginsWith};
ghost use Rattle.image_file.specs.Fault.{word_in_file, shape_in, IsFramed, HasFront, HasFault, IsSoundFile};

use crate::fault::ImageFault;
use crate::formatted::MAGIC;
use crate::medium::Medium;
use crate::words::{WORD_BYTES, Words, word_at};
use image_layout::format::{FORMAT_NUMBER, format_of, kind_of};
use image_layout::{
    BLOCK, FRONT_DEPTH, FRONT_FORMAT, FRONT_MAGIC, FRONT_SEGMENTS, Geometry, MOST_KIND,
};
use image_rules::first_breach;
use map_model::NoMemory;
use std::alloc::Global;
use word_bits::each_fits;

/// How many bytes the words in front of an image have, which are about the whole.
const FRONT_BYTES: usize = WORD_BYTES * BLOCK as usize;

/// The words of a file.
fn words_in(alloc: Global, bytes: &[u8]) -> Result<Words, NoMemory>
    requires { length bytes.now % word_bytes ≡ 0 }
    ensures { IfOk result (λ words. bytes.now ≡ image_bytes words) }
{
    let mut words = Words::with_room(alloc, bytes.len() / WORD_BYTES)?;
    words.push_bytes(bytes)?;
    Ok(words)
}

/// The geometry that the first four words of a file say.
fn geometry_said(front: &[u64]) -> Result<Geometry, ImageFault>
    requires { front_words ≤ length front.now }
    ensures ok { IfOk result (λ geometry. (bytes : List ℕ) → BeginsWith bytes front.now → HasFront bytes (λ shape. geometry ≡ shape)) }
    ensures fault { IfErr result (λ fault. (bytes : List ℕ) → BeginsWith bytes front.now → HasFault bytes fault) }
{
    if front[FRONT_MAGIC] != MAGIC {
        return Err(ImageFault::Magic);
    }
    let format = front[FRONT_FORMAT];
    let kind = kind_of(format);
    if format_of(format) != FORMAT_NUMBER || kind > MOST_KIND {
        return Err(ImageFault::Format);
    }
    match Geometry::new(front[FRONT_SEGMENTS], front[FRONT_DEPTH], kind) {
        Ok(geometry) => Ok(geometry),
        Err(_) => Err(ImageFault::Geometry),
    }
}

/// The geometry that a file says, if all that is looked at before the rules is right.
fn geometry_in(bytes: &[u8]) -> Result<Geometry, ImageFault>
    ensures framed { IfOk result (λ geometry. IsFramed bytes.now) }
    ensures shape { IfOk result (λ geometry. geometry ≡ shape_in (word_in_file bytes.now)) }
    ensures fault { IfErr result (λ fault. HasFault bytes.now fault) }
{
    if bytes.len() < FRONT_BYTES {
        return Err(ImageFault::Length);
    }
    let front = [
        word_at(bytes, FRONT_MAGIC),
        word_at(bytes, FRONT_FORMAT),
        word_at(bytes, FRONT_SEGMENTS),
        word_at(bytes, FRONT_DEPTH),
    ];
    let geometry = match geometry_said(&front) {
        Ok(geometry) => geometry,
        Err(fault) => return Err(fault),
    };
    if bytes.len() as u64 != WORD_BYTES as u64 * geometry.words() {
        return Err(ImageFault::Length);
    }
    Ok(geometry)
}

/// The geometry that the words of a file say, if all that is looked at before the rules is right.
fn geometry_of(words: &[u64]) -> Result<Geometry, ImageFault>
    ensures framed { IfOk result (λ geometry. IsFramed (image_bytes words.now)) }
    ensures shape { IfOk result (λ geometry. geometry ≡ shape_in (word_in_file (image_bytes words.now))) }
    ensures fault { IfErr result (λ fault. HasFault (image_bytes words.now) fault) }
{
    each_fits(words);
    if words.len() < FRONT_BYTES / WORD_BYTES {
        return Err(ImageFault::Length);
    }
    let geometry = match geometry_said(words) {
        Ok(geometry) => geometry,
        Err(fault) => return Err(fault),
    };
    if words.len() as u64 != geometry.words() {
        return Err(ImageFault::Length);
    }
    Ok(geometry)
}

/// The image of these words and this geometry, if they follow the rules.
fn image_of(alloc: Global, geometry: Geometry, words: Words) -> Result<Medium, ImageFault>
    requires framed { IsFramed (image_bytes words) }
    requires shape { geometry ≡ shape_in (word_in_file (image_bytes words)) }
    ensures sound { IfOk result (λ medium. IsSoundImage medium.geometry medium.words) }
    ensures same { IfOk result (λ medium. medium.words ≡ words) }
    ensures fault { IfErr result (λ fault. HasFault (image_bytes words) fault) }
{
    let Ok(found) = first_breach(alloc, &geometry, words.as_slice()) else {
        return Err(ImageFault::NoMemory);
    };
    match found {
        Some(breach) => Err(ImageFault::Unsound {
            rule: breach.rule,
            word: breach.word,
        }),
        None => Ok(Medium { geometry, words }),
    }
}

/// The image whose file these bytes are, exactly where they are the file of a sound image.
///
/// # Errors
///
/// The first fault of the bytes: see [`ImageFault`]. `NoMemory` if memory runs out.
pub fn from_bytes(alloc: Global, bytes: &[u8]) -> Result<Medium, ImageFault>
    ensures sound { IfOk result (λ medium. IsSoundImage medium.geometry medium.words) }
    ensures file { IfOk result (λ medium. bytes.now ≡ image_bytes medium.words) }
    ensures fault { IfErr result (λ fault. HasFault bytes.now fault) }
    ensures complete { IsSoundFile bytes.now → IfErr result (λ fault. fault ≡ ImageFault.NoMemory) }
{
    let geometry = match geometry_in(bytes) {
        Ok(geometry) => geometry,
        Err(fault) => return Err(fault),
    };
    let Ok(words) = words_in(alloc, bytes) else {
        return Err(ImageFault::NoMemory);
    };
    image_of(alloc, geometry, words)
}

/// The image whose words these are, exactly where they are a sound image. Words that were read piece by piece need no file in
/// memory beside them.
///
/// # Errors
///
/// The first fault of the words' file: see [`ImageFault`]. `NoMemory` if memory runs out.
pub fn from_words(alloc: Global, words: Words) -> Result<Medium, ImageFault>
    ensures sound { IfOk result (λ medium. IsSoundImage medium.geometry medium.words) }
    ensures same { IfOk result (λ medium. medium.words ≡ words) }
    ensures fault { IfErr result (λ fault. HasFault (image_bytes words) fault) }
    ensures complete { IsSoundFile (image_bytes words) → IfErr result (λ fault. fault ≡ ImageFault.NoMemory) }
{
    let geometry = match geometry_of(words.as_slice()) {
        Ok(geometry) => geometry,
        Err(fault) => return Err(fault),
    };
    image_of(alloc, geometry, words)
}
