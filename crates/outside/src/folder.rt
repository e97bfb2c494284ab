//! The folder of a store's file, and its sync.
//!
//! If the sync fails, a name is made in the folder and removed again, for the reason that written_again.rt gives: what
//! the system could not write then waits for the next sync.
use crate::failures::unless_one_of;
use crate::held_file::HeldFile;
use crate::named_file::{locked, new_file};
use crate::store_file::Access;
use crate::store_names::StoreNames;
use std::alloc::Global;
use std::fs::OpenFile;
use std::io::ErrorKind;
use std::path::PathBuf;
use std::rt::Files as HostSystem;
use std::{fs, io};

/// Where the file of a store lies.
#[derive(Drop)]
pub(crate) enum Place {
    /// In the working folder, under the store's own name.
    Here,

    /// At the end of a symbolic link.
    There(Linked),

    /// At the end of a link that we may not follow, or whose path is no text or too long to be told.
    Unknown,
}

/// The folder of a file at the end of a link, and the path of a store in the making there.
#[derive(Drop)]
pub(crate) struct Linked {
    folder: PathBuf,
    unfinished: PathBuf,

    /// The link leads to that path.
    pub is_unfinished: bool,
}

/// A folder, and the path of a store in the making there.
#[derive(Clone, Copy)]
pub(crate) struct Folder<'a> {
    path: &'a str,
    pub unfinished: &'a str,
}

/// Where the file of a store lies that was found.
pub(crate) fn place_of<R: HostSystem>(
    rt: &R,
    alloc: Global,
    names: StoreNames,
) -> io::Result<Place> {
    if !fs::symlink_metadata(rt, names.store)?.is_symlink() {
        return Ok(Place::Here);
    }
    let mut folder = match rt.canonicalize(alloc, names.store) {
        Ok(file) => file,
        Err(error) => {
            return match error.kind() {
                ErrorKind::PermissionDenied | ErrorKind::InvalidFilename => Ok(Place::Unknown),
                _ => Err(error),
            };
        }
    };
    let is_unfinished = folder.ends_with(names.unfinished);
    folder.pop();
    let mut unfinished = PathBuf::from_str(alloc, folder.as_str())?;
    unfinished.push(names.unfinished)?;
    Ok(Place::There(Linked {
        folder,
        unfinished,
        is_unfinished,
    }))
}

impl Place {
    /// Syncs the folder that has the file itself, not a link to it. Whoever made the file may have been killed before
    /// this was done.
    pub(crate) fn sync<R: HostSystem>(
        &self,
        rt: &R,
        names: StoreNames,
        access: Access,
    ) -> io::Result<()>
    where
        R::File: HeldFile,
    {
        match self {
            Place::Here => Folder::working(names).sync(rt, access),
            Place::There(linked) => linked.folder().sync(rt, access),
            Place::Unknown => Ok(()),
        }
    }
}

impl Linked {
    /// The folder at the end of the link.
    pub(crate) fn folder(&self) -> Folder<'_> {
        Folder {
            path: self.folder.as_str(),
            unfinished: self.unfinished.as_str(),
        }
    }
}

impl<'a> Folder<'a> {
    /// The working folder.
    pub(crate) fn working(names: StoreNames) -> Folder<'a> {
        Folder {
            path: ".",
            unfinished: names.unfinished,
        }
    }

    /// Syncs the folder. It passes over only errors by which we can't: we may not open the folder, or its file system
    /// syncs no folders, or it is only to be read and syncs nothing.
    pub(crate) fn sync<R: HostSystem>(self, rt: &R, access: Access) -> io::Result<()>
    where
        R::File: HeldFile,
    {
        let folder = match fs::open(rt, self.path) {
            Ok(folder) => folder,
            Err(error) => return unless_one_of(Err(error), &[ErrorKind::PermissionDenied]),
        };
        match access {
            Access::Read => unless_one_of(
                folder.sync_all(),
                &[
                    ErrorKind::InvalidInput,
                    ErrorKind::Unsupported,
                    ErrorKind::ReadOnlyFilesystem,
                ],
            ),
            Access::Write => {
                let answer = unless_one_of(
                    folder.sync_all(),
                    &[ErrorKind::InvalidInput, ErrorKind::Unsupported],
                );
                if answer.is_err() {
                    name_again(rt, self.unfinished).ok();
                }
                answer
            }
        }
    }
}

/// Makes a file of this name and removes the name, after a folder's sync that failed. If the name is there already,
/// nothing is done: a making removes it, or it is another's. Under its lock no making takes the file for what a cut
/// left. No sync follows.
fn name_again<R: HostSystem>(rt: &R, name: &str) -> io::Result<()>
where
    R::File: HeldFile,
{
    let file = new_file(rt, name)?;
    let _held = locked(rt, name, file)?;
    rt.remove_file(name)
}
