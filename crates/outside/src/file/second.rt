// The second file: made new in the folder of the first, written whole, and put in its place.
ghost use Rattle.std.specs.Prelude.{◌≡◌, ◌++◌, IfOk, codes, string_bytes};
ghost use Rattle.std.specs.Fmt.{decimal};
ghost use Rattle.std.specs.Path.{path_with_file_name};

use super::held::Held;
use super::opened::above_streams;
use super::rights::{first_mode, kept_mode};
use super::trouble::{Step, Trouble};
use std::alloc::{AllocError, Global};
use std::fs::{File, Metadata, OpenOptions, Permissions};
use std::io::{ErrorKind, Write};
use std::os::unix::fs::{MetadataExt, OpenOptionsExt, PermissionsExt, fchown};
use std::path::Path;
use std::rt::Files;
use std::{fs, io};

/// The path of the second file: in the folder of this one, and named by the number.
pub fn second_path(alloc: Global, path: &str, number: u64) -> Result<String, AllocError>
    ensures { IfOk result (λ second. string_bytes second ≡ path_with_file_name path.now (codes ".dash-new-" ++ decimal number)) }
{
    let name = format!(in alloc; ".dash-new-{number}")?;
    let second = Path::new(path).with_file_name(alloc, name.as_str())?;
    Ok(second.into_string())
}

// The options by which a new file is made. It is opened only where nothing has its name, no link either, and has no
// more rights than the file that it is to replace.
fn new_file(before: Option<&Held>) -> OpenOptions {
    let mut options = OpenOptions::new();
    options.write(true).create_new(true);
    if let Some(held) = before {
        options.mode(first_mode(held.found.mode()));
    }
    options
}

// Gives the file the owner, the group and the mode that this one had, as far as the system lets this process.
fn keep_rights(file: &File, had: &Metadata) -> io::Result<()> {
    // A member of a group may set it, and root alone another owner.
    let _ = fchown(file, None, Some(had.gid()));
    let _ = fchown(file, Some(had.uid()), None);
    let has = file.metadata()?;
    let mode = kept_mode(had.mode(), has.uid() == had.uid(), has.gid() == had.gid());
    let _ = file.set_permissions(Permissions::from_mode(mode));
    Ok(())
}

fn fill(made: File, before: Option<&Held>, bytes: &[u8]) -> io::Result<()> {
    let mut file = above_streams(made)?;
    file.write_all(bytes)?;
    if let Some(held) = before {
        keep_rights(&file, &held.found)?;
    }
    file.sync_all()
}

/// Makes the second file and brings these bytes to the disk. Where that fails, it is gone again.
pub fn write_second<R: Files<File = File>>(
    rt: &R,
    second: &str,
    before: Option<&Held>,
    bytes: &[u8],
) -> Result<(), Trouble> {
    let made = match new_file(before).open(rt, second) {
        Ok(file) => file,
        Err(error) => return Err(Trouble::Refused(Step::Make, error)),
    };
    match fill(made, before, bytes) {
        Ok(()) => Ok(()),
        Err(error) => {
            let _ = fs::remove_file(rt, second);
            Err(Trouble::Refused(Step::Write, error))
        }
    }
}

// Gives the second file the name of the one that is held, if that still has it.
fn replace<R: Files>(rt: &R, second: &str, path: &str, held: &Held) -> Result<(), Trouble> {
    held.is_named(rt, path)?;
    match fs::rename(rt, second, path) {
        Ok(()) => Ok(()),
        Err(error) => Err(Trouble::Refused(Step::Rename, error)),
    }
}

// Gives the second file a name that nothing has. A rename would take the name from what has come there meanwhile, so
// it is made where the file system knows no second names alone.
fn name<R: Files>(rt: &R, second: &str, path: &str) -> Result<(), Trouble> {
    match fs::hard_link(rt, second, path) {
        Ok(()) => {
            let _ = fs::remove_file(rt, second);
            Ok(())
        }
        Err(error) if error.kind() == ErrorKind::AlreadyExists => Err(Trouble::Replaced),
        Err(_) => match fs::rename(rt, second, path) {
            Ok(()) => Ok(()),
            Err(error) => Err(Trouble::Refused(Step::Rename, error)),
        },
    }
}

/// Puts the second file in the place of the first in one step, or removes it.
pub fn put_in_place<R: Files>(
    rt: &R,
    second: &str,
    path: &str,
    before: Option<&Held>,
) -> Result<(), Trouble> {
    let put = match before {
        Some(held) => replace(rt, second, path, held),
        None => name(rt, second, path),
    };
    if put.is_err() {
        let _ = fs::remove_file(rt, second);
    }
    put
}
