//! What no clause says of a file. The tests may start in one folder: each makes files of its own there, most of them in folders of their own.
use crate::rows::{Tells, said, shown, walk};
use outside::{Failed, FileStore, Purpose, Store, Trouble};
use row_file::{first_word, number_of};
use std::alloc::Global;
use std::fs::Permissions;
use std::os::unix::fs::{MetadataExt, PermissionsExt, symlink};
use std::test::Fail;
use std::{fs, io};

// The number in the name of a second file: `.dash-new-7`.
const CHOSEN: u64 = 7;

// Why a call on a store failed.
fn reason(alloc: Global, image: &FileStore<'_, HostRuntime>) -> Result<String, Fail> {
    match image.trouble() {
        Some(Trouble::Refused(step, _)) => Ok(format!(in alloc; "{step:?} refused")?),
        Some(trouble) => shown(alloc, &trouble),
        None => said(alloc, "none"),
    }
}

// What is read, or why not.
fn read(alloc: Global, image: &mut FileStore<'_, HostRuntime>) -> Result<String, Fail> {
    match image.read_all(alloc, 9) {
        Ok(bytes) => Ok(String::from_utf8(bytes)?),
        Err(_) => reason(alloc, image),
    }
}

// That bytes are written, or why not.
fn write(
    alloc: Global,
    image: &mut FileStore<'_, HostRuntime>,
    bytes: &[u8],
) -> Result<String, Fail> {
    if image.writes >= u64::MAX {
        return Err(Fail::new("no more writes are counted"));
    }
    match image.write_all(bytes) {
        Ok(()) => said(alloc, "done"),
        Err(Failed) => reason(alloc, image),
    }
}

// 200000 bytes, which count to 250 again and again.
fn many_bytes(alloc: Global) -> Result<Vec<u8>, Fail> {
    let mut bytes = Vec::new(alloc);
    for number in 0..200_000u32 {
        bytes.push((number % 251) as u8)?;
    }
    Ok(bytes)
}

// How many of them are read up to this limit, and whether they are the first ones.
fn many_read(
    alloc: Global,
    image: &mut FileStore<'_, HostRuntime>,
    limit: u64,
) -> Result<String, Fail> {
    let found = image.read_all(alloc, limit)?;
    let bytes = many_bytes(alloc)?;
    shown(alloc, &(found.len(), bytes.as_slice().starts_with(&found)))
}

// What a deed on a store comes to.
fn deed(
    alloc: Global,
    image: &mut FileStore<'_, HostRuntime>,
    name: &str,
    text: &str,
) -> Result<String, Fail> {
    match name {
        "read" => read(alloc, image),
        "write" => write(alloc, image, text.as_bytes()),
        "counts" => shown(alloc, &(image.faults, image.writes)),
        "write-many" => write(alloc, image, &many_bytes(alloc)?),
        "read-many" => many_read(alloc, image, number_of(text)?),
        _ => Err(Fail::new(name)),
    }
}

// What has a name: nothing, a link, or a file with its bytes.
fn found(rt: &HostRuntime, path: &str) -> Result<String, Fail> {
    if !fs::exists(rt, path)? {
        return said(rt.alloc(), "nothing");
    }
    if fs::symlink_metadata(rt, path)?.is_symlink() {
        return said(rt.alloc(), "a link");
    }
    Ok(fs::read_to_string(rt, path)?)
}

// The bits of a file's mode, the set-id bits among them.
fn mode_of(rt: &HostRuntime, path: &str) -> Result<String, Fail> {
    let mode = fs::metadata(rt, path)?.mode() & 0o7777;
    Ok(format!(in rt.alloc(); "{mode:o}")?)
}

// Gives a file these bits, in octal digits.
fn set_mode(rt: &HostRuntime, path: &str, mode: &str) -> io::Result<()> {
    match u32::from_str_radix(mode, 8) {
        Ok(mode) => fs::set_permissions(rt, path, Permissions::from_mode(mode)),
        Err(_) => Err(io::Error::other("no mode")),
    }
}

// Makes or changes a folder or a file.
fn change(rt: &HostRuntime, name: &str, path: &str, text: &str) -> io::Result<()> {
    match name {
        "folder" => fs::create_dir(rt, path),
        "file" => fs::write(rt, path, text.as_bytes()),
        "link" => symlink(rt, text, path),
        "rename" => fs::rename(rt, path, text),
        "remove" => fs::remove_file(rt, path),
        "mode" => set_mode(rt, path, text),
        _ => Err(io::Error::other("no such change")),
    }
}

// What is asked of a file by its path, or what a change of it comes to.
fn file_told(rt: &HostRuntime, name: &str, path: &str, text: &str) -> Result<String, Fail> {
    match name {
        "at" => found(rt, path),
        "bits" => mode_of(rt, path),
        _ => shown(rt.alloc(), &change(rt, name, path, text).is_ok()),
    }
}

// Stores of files, by their numbers from 0.
#[derive(Drop)]
struct Stores<'a> {
    rt: &'a HostRuntime,
    images: Vec<FileStore<'a, HostRuntime>>,
}

impl<'a> Stores<'a> {
    // Makes a store more, and tells its number.
    fn open(&mut self, path: &str, purpose: Purpose) -> Result<String, Fail> {
        let number = self.images.len();
        let image = FileStore::new(self.rt, self.rt.alloc(), path, purpose, CHOSEN)?;
        match self.images.push(image) {
            Ok(()) => shown(self.rt.alloc(), &number),
            Err(_) => Err(Fail::new("out of memory")),
        }
    }

    // What a deed on the store of this number comes to; or, where it is no number, what is told of a file.
    fn deed(&mut self, alloc: Global, name: &str, rest: &str) -> Result<String, Fail> {
        let (first, text) = first_word(rest);
        let Ok(number) = number_of(first) else {
            return file_told(self.rt, name, first, text);
        };
        match self.images.get_mut(number as usize) {
            Some(image) => deed(alloc, image, name, text),
            None => Err(Fail::new("no store")),
        }
    }
}

impl<'a> Tells for Stores<'a> {
    fn told(&mut self, alloc: Global, asked: &str) -> Result<String, Fail> {
        let (name, rest) = first_word(asked);
        match name {
            "reader" => self.open(rest, Purpose::Reading),
            "writer" => self.open(rest, Purpose::Writing),
            "close" => {
                self.images.clear();
                said(alloc, "done")
            }
            _ => self.deed(alloc, name, rest),
        }
    }
}

#[test]
fn stores_of_files(rt: HostRuntime) -> Result<(), Fail> {
    let mut stores = Stores {
        rt: &rt,
        images: Vec::new(rt.alloc()),
    };
    walk(rt.alloc(), &mut stores, ROWS)
}

/// What is done, and what it comes to: `reader` and `writer` make a store and tell its number, and a change of a folder or a file is told by `true`.
/// `write-many` writes many bytes, and `read-many` tells how many are read up to a limit, and whether they are the first ones of those.
const ROWS: &str = "\
# A file is made, and replaced by many bytes, which come back. One byte is read past the limit, and writes are counted.
writer large.img -> 0
write 0 the old bytes -> done
write-many 0 -> done
read-many 0 200000 -> (200000, true)
read-many 0 99999 -> (100000, true)
counts 0 -> (0, 2)
close -> done
# A file that is not there: so it is told, and each later call fails.
writer nowhere/edge.img -> 0
read 0 -> Missing
write 0 new -> Missing
counts 0 -> (2, 1)
close -> done
# A second writer is told, and so is one that writes alone. A reader is not kept out.
folder two -> true
file two/edge.img old -> true
writer two/edge.img -> 0
read 0 -> old
writer two/edge.img -> 1
read 1 -> Busy
writer two/edge.img -> 2
write 2 empty -> Busy
reader two/edge.img -> 3
read 3 -> old
write 0 new -> done
at two/.dash-new-7 -> nothing
writer two/edge.img -> 4
read 4 -> new
close -> done
# A file that was replaced meanwhile stays.
folder meanwhile -> true
file meanwhile/edge.img old -> true
file meanwhile/other other -> true
writer meanwhile/edge.img -> 0
read 0 -> old
rename meanwhile/other meanwhile/edge.img -> true
write 0 new -> Replaced
at meanwhile/edge.img -> other
at meanwhile/.dash-new-7 -> nothing
close -> done
# What has the name of the second file stays: a link, and a folder.
folder name -> true
file name/edge.img old -> true
file name/notes notes -> true
link name/.dash-new-7 notes -> true
writer name/edge.img -> 0
write 0 new -> Make refused
at name/.dash-new-7 -> a link
remove name/.dash-new-7 -> true
folder name/.dash-new-7 -> true
writer name/edge.img -> 1
write 1 new -> Make refused
at name/notes -> notes
at name/edge.img -> old
close -> done
# The mode stays; and so does a file that nobody may write.
folder mode -> true
file mode/edge.img old -> true
mode mode/edge.img 600 -> true
writer mode/edge.img -> 0
write 0 new -> done
bits mode/edge.img -> 600
close -> done
remove mode/edge.img -> true
file mode/edge.img old -> true
mode mode/edge.img 640 -> true
writer mode/edge.img -> 0
write 0 new -> done
bits mode/edge.img -> 640
close -> done
remove mode/edge.img -> true
file mode/edge.img old -> true
mode mode/edge.img 666 -> true
writer mode/edge.img -> 0
write 0 new -> done
bits mode/edge.img -> 666
close -> done
remove mode/edge.img -> true
file mode/edge.img old -> true
mode mode/edge.img 4755 -> true
writer mode/edge.img -> 0
write 0 new -> done
bits mode/edge.img -> 4755
close -> done
remove mode/edge.img -> true
file mode/edge.img old -> true
mode mode/edge.img 444 -> true
writer mode/edge.img -> 0
write 0 new -> ReadOnly
at mode/edge.img -> old
close -> done
# A link is followed, where it leads to a file.
folder link -> true
folder link/folder -> true
file link/folder/real.img old -> true
link link/edge.img folder/real.img -> true
writer link/edge.img -> 0
write 0 new -> done
at link/edge.img -> a link
at link/folder/real.img -> new
remove link/folder/real.img -> true
writer link/edge.img -> 1
write 1 new -> LeadsNowhere
reader link/edge.img -> 2
read 2 -> LeadsNowhere
close -> done
# A folder is no file.
folder folder -> true
folder folder/edge.img -> true
reader folder/edge.img -> 0
read 0 -> NoFile
writer folder/edge.img -> 1
write 1 new -> NoFile
close -> done
";
