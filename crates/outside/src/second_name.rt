//! The second name of a store's file.
use crate::failures::unless_one_of;
use crate::folder::{Folder, Place};
use crate::held_file::HeldFile;
use crate::named_file::is_same;
use crate::store_file::Access;
use crate::store_names::StoreNames;
use std::fs::OpenFile;
use std::io::ErrorKind;
use std::os::unix::fs::MetadataExt;
use std::rt::Files as HostSystem;
use std::{fs, io};

/// Removes the name of a store in the making if it is a second one of this open and locked store: whoever wrote under
/// it would write the store. A making that was cut leaves both names, where the file lies. It stays if the store's
/// own name leads to it, or if nobody can tell.
pub(crate) fn remove_second_name<R: HostSystem>(
    rt: &R,
    names: StoreNames,
    place: &Place,
    file: &R::File,
) -> io::Result<()>
where
    R::File: HeldFile,
{
    match place {
        Place::Here => remove_in(rt, Folder::working(names), file),
        Place::There(linked) if !linked.is_unfinished => {
            remove_in(rt, linked.folder(), file)?;
            remove_in(rt, Folder::working(names), file)
        }
        _ => Ok(()),
    }
}

/// Removes the name in this folder, and syncs that. The name of another file stays, and so does one that we may not
/// remove.
fn remove_in<R: HostSystem>(rt: &R, folder: Folder<'_>, file: &R::File) -> io::Result<()>
where
    R::File: HeldFile,
{
    if !has_second_name(rt, folder.unfinished, file)? {
        return Ok(());
    }
    match rt.remove_file(folder.unfinished) {
        Ok(()) => folder.sync(rt, Access::Write),
        Err(error) => unless_one_of(
            Err(error),
            &[ErrorKind::PermissionDenied, ErrorKind::ReadOnlyFilesystem],
        ),
    }
}

/// Whether this is one of two names of the file, or of more. A symbolic link to it isn't.
fn has_second_name<R: HostSystem>(rt: &R, name: &str, file: &R::File) -> io::Result<bool> {
    match fs::symlink_metadata(rt, name) {
        Ok(found) => Ok(is_same(&found, &file.metadata()?) && found.nlink() > 1),
        Err(error) if error.kind() == ErrorKind::NotFound => Ok(false),
        Err(error) => Err(error),
    }
}
