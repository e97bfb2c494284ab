//! A new store, which is whole before it has its name.
use crate::failures::unless_one_of;
use crate::folder::Folder;
use crate::held_file::HeldFile;
use crate::named_file::{OWNER_ALONE, is_same, locked, new_file, require_named};
use crate::retried::write_whole;
use crate::store_file::Access;
use crate::store_names::StoreNames;
use crate::written_again::{Unsynced, sync_or_write_again};
use std::fs::{OpenFile, OpenOptions, Permissions};
use std::io::ErrorKind;
use std::os::unix::fs::{MetadataExt, PermissionsExt};
use std::rt::Files as HostSystem;
use std::{fs, io};

/// The bits of a mode that say who may do what, and under whose name.
const MODE_BITS: u32 = 0o7777;

/// A folder of the system that belongs to the user of this process.
const PROCESS: &str = "/proc/self";

/// How many zeros are written at once.
const PIECE: usize = 512;

/// Makes a store of this number of zeros, and locks it. It fails if the store's name is there. The zeros are on the
/// medium before the file gets that name, and the name is on the medium at the end. If the file system has no second
/// names, the file has the store's name from the first.
pub(crate) fn make<R: HostSystem>(rt: &R, names: StoreNames, size: u64) -> io::Result<R::File>
where
    R::File: HeldFile,
{
    remove_unfinished(rt, names.unfinished)?;
    let file = made(rt, names.unfinished, size)?;
    let answer = name_store(rt, names, &file);
    rt.remove_file(names.unfinished)?;
    if answer? {
        return Ok(file);
    }
    let file = made(rt, names.store, size)?;
    Folder::working(names).sync(rt, Access::Write)?;
    Ok(file)
}

/// Gives a whole file the store's name, and syncs the folder. It is false if the file system has no second names.
fn name_store<R: HostSystem>(rt: &R, names: StoreNames, file: &R::File) -> io::Result<bool>
where
    R::File: HeldFile,
{
    match rt.hard_link(names.unfinished, names.store) {
        Ok(()) => {
            require_named(rt, names.store, file)?;
            Folder::working(names).sync(rt, Access::Write)?;
            Ok(true)
        }
        Err(error) => match error.kind() {
            ErrorKind::PermissionDenied | ErrorKind::Unsupported | ErrorKind::TooManyLinks => {
                Ok(false)
            }
            _ => Err(error),
        },
    }
}

/// A new file of this number of zeros, which are on the medium. It fails if anything has this name. If the file doesn't
/// become whole, its name goes again.
fn made<R: HostSystem>(rt: &R, name: &str, size: u64) -> io::Result<R::File>
where
    R::File: HeldFile,
{
    let file = new_file(rt, name)?;
    let mut file = locked(rt, name, file)?;
    match fill(&mut file, size) {
        Ok(()) => Ok(file),
        Err(error) => {
            rt.remove_file(name).ok();
            Err(error)
        }
    }
}

/// Gives a new file the mode of a store, and this number of zeros, which are on the medium then.
fn fill<F: HeldFile>(file: &mut F, size: u64) -> io::Result<()> {
    give_to_owner_alone(file)?;
    write_zeros(file, size)?;
    sync_or_write_again(file, size, Unsynced::whole(size))
}

/// Gives a new file the mode of a store, since the process's mask may have taken away what its owner may do. The error
/// of a file system that keeps no modes is passed over.
fn give_to_owner_alone<F: OpenFile>(file: &F) -> io::Result<()> {
    if file.metadata()?.permissions().mode() & MODE_BITS == OWNER_ALONE {
        return Ok(());
    }
    unless_one_of(
        file.set_permissions(Permissions::from_mode(OWNER_ALONE)),
        &[ErrorKind::PermissionDenied, ErrorKind::Unsupported],
    )
}

/// Writes this number of zeros.
fn write_zeros<F: HeldFile>(file: &mut F, size: u64) -> io::Result<()> {
    let zeros = [0; PIECE];
    let mut left = size;
    while left > 0 {
        let count = left.min(PIECE as u64);
        write_whole(file, &zeros[..count as usize])?;
        left -= count;
    }
    Ok(())
}

/// Removes what a cut has left of a store in the making, which is never read. It fails if the name isn't that of a
/// plain file of this user, or if another makes its store in it.
fn remove_unfinished<R: HostSystem>(rt: &R, name: &str) -> io::Result<()>
where
    R::File: HeldFile,
{
    let found = match fs::symlink_metadata(rt, name) {
        Ok(found) => found,
        Err(error) if error.kind() == ErrorKind::NotFound => return Ok(()),
        Err(error) => return Err(error),
    };
    if !found.is_file() || found.uid() != fs::metadata(rt, PROCESS)?.uid() {
        return Err(io::Error::from(ErrorKind::AlreadyExists));
    }
    let file = open_unfinished(rt, name)?;
    let file = locked(rt, name, file)?;
    if !is_same(&found, &file.metadata()?) {
        return Err(io::Error::from(ErrorKind::AlreadyExists));
    }
    rt.remove_file(name)
}

/// The file of this user that a cut has left. If its mode keeps its owner out, it first gets that of a store.
fn open_unfinished<R: HostSystem>(rt: &R, name: &str) -> io::Result<R::File> {
    let mut options = OpenOptions::new();
    options.read(true).write(true);
    match options.open(rt, name) {
        Err(error) if error.kind() == ErrorKind::PermissionDenied => {
            rt.set_permissions(name, Permissions::from_mode(OWNER_ALONE))?;
            options.open(rt, name)
        }
        answer => answer,
    }
}
