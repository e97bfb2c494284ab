//! An open file and the name that leads to it.
use crate::held_file::HeldFile;
use std::fs::{Metadata, OpenFile, OpenOptions};
use std::io::ErrorKind;
use std::os::unix::fs::{MetadataExt, OpenOptionsExt};
use std::rt::Files as HostSystem;
use std::{fs, io};

/// The mode of a new file: only its owner may read and write it.
pub(crate) const OWNER_ALONE: u32 = 0o600;

/// A new file. It fails if anything has this name.
pub(crate) fn new_file<R: HostSystem>(rt: &R, name: &str) -> io::Result<R::File> {
    OpenOptions::new()
        .read(true)
        .write(true)
        .create_new(true)
        .mode(OWNER_ALONE)
        .open(rt, name)
}

/// Whether both are of one file.
pub(crate) fn is_same(one: &Metadata, other: &Metadata) -> bool {
    one.dev() == other.dev() && one.ino() == other.ino()
}

/// The file, locked. It fails if the name doesn't lead to it then.
pub(crate) fn locked<R: HostSystem>(rt: &R, name: &str, file: R::File) -> io::Result<R::File>
where
    R::File: HeldFile,
{
    let file = file.above_streams()?;
    file.lock_alone()?;
    require_named(rt, name, &file)?;
    Ok(file)
}

/// Fails if the name leads to another file, or to none.
pub(crate) fn require_named<R: HostSystem>(rt: &R, name: &str, file: &R::File) -> io::Result<()> {
    if is_same(&fs::metadata(rt, name)?, &file.metadata()?) {
        Ok(())
    } else {
        Err(io::Error::from(ErrorKind::NotFound))
    }
}

/// Fails if the file has fewer bytes than a store of this size.
pub(crate) fn require_size<F: OpenFile>(file: &F, size: u64) -> io::Result<()> {
    if file.metadata()?.len() < size {
        Err(io::Error::from(ErrorKind::UnexpectedEof))
    } else {
        Ok(())
    }
}
