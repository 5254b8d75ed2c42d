//! Images whose words come in pieces, and what is said of bytes that are no image. Files word by word are rows of `rows`.
use crate::rows::holds;
use image_file::{ImageFault, Words, format, from_words, read_of_written, to_bytes};
use image_layout::{Geometry, IDENTITY_KIND};
use image_rules::Rule;
use map_model::NoMemory;
use script_text::ScriptFault;
use std::alloc::Global;
use std::test::Fail;

/// The words of a file that comes in pieces of one word, into room for so many.
fn pieced(alloc: Global, room: usize, bytes: &[u8]) -> Result<Words, Fail> {
    let mut words = Words::with_room(alloc, room)?;
    for piece in bytes.chunks_exact(8) {
        words.push_bytes(piece)?;
    }
    Ok(words)
}

/// Whether the image of these bytes is the same where its words come in pieces of one word.
fn is_same_in_pieces(alloc: Global, bytes: &[u8]) -> Result<bool, Fail> {
    let medium = from_words(alloc, pieced(alloc, 1, bytes)?)?;
    let again = to_bytes(alloc, &medium)?;
    Ok(again.as_slice() == bytes)
}

/// Why no words are no image.
fn fault_of_none(alloc: Global) -> Result<Option<ImageFault>, Fail> {
    Ok(from_words(alloc, pieced(alloc, 0, &[])?).err())
}

#[test]
fn words_in_pieces(rt: HostRuntime) -> Result<(), Fail> {
    let alloc = rt.alloc();
    let medium = format(alloc, Geometry::new(1, 0, IDENTITY_KIND)?)?;
    holds(
        read_of_written(alloc, &medium).is_ok(),
        "what was made is read",
    )?;
    let bytes = to_bytes(alloc, &medium)?;
    holds(
        is_same_in_pieces(alloc, &bytes)?,
        "pieces of one word are the words",
    )
}

#[test]
fn no_words_are_no_image(rt: HostRuntime) -> Result<(), Fail> {
    let fault = fault_of_none(rt.alloc())?;
    holds(fault == Some(ImageFault::Length), "no words are no image")
}

/// All faults as they are told.
fn faults_told(alloc: Global) -> Result<String, Fail> {
    let broken = ImageFault::Unsound {
        rule: Rule::Records,
        word: 100,
    };
    let faults = [
        ImageFault::Length,
        ImageFault::Magic,
        ImageFault::Format,
        ImageFault::Geometry,
        broken,
        ImageFault::NoMemory,
    ];
    let mut told = format!(in alloc; "{} {}", ScriptFault::NoMemory, NoMemory)?;
    for fault in faults {
        write!(told, ", {fault}")?;
    }
    Ok(told)
}

#[test]
fn faults_are_told(rt: HostRuntime) -> Result<(), Fail> {
    let told = faults_told(rt.alloc())?;
    assert_eq!(rt;
        told.as_str(),
        "out of memory out of memory, length, magic, format, geometry, rule 4 word 100, out of memory"
    );
    Ok(())
}
