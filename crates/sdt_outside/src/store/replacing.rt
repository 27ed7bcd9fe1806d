//! Files of the system that are replaced whole, so that a full disk leaves an old file as it was.

use crate::store::StoreError;
use std::alloc::{AllocError, Global};
use std::fs::{File, OpenFile, OpenOptions, Permissions};
use std::io::{Error, ErrorKind, Write};
use std::path::{Path, PathBuf};
use std::rt::Files;
use std::{fs, io};

/// How many names are tried for a new file.
const NAMES: u32 = 1000;

/// Sets what the file of a path holds. A regular file, to which links may lead, or one that is missing comes by a new one
/// that was written beside it. All else is written in place: a device, a pipe, a link that leads nowhere or to an open file,
/// and a file whose folder may not be written.
pub fn set_content<R: Files>(
    system: &R,
    alloc: Global,
    path: &str,
    bytes: &[u8],
) -> Result<(), StoreError> {
    match fs::metadata(system, path) {
        Ok(old) if old.is_file() => {
            replace_target(system, alloc, path, bytes, old.permissions())
        }
        Ok(_) => write_in_place(system, path, bytes),
        Err(_) if is_link(system, path) => write_in_place(system, path, bytes),
        Err(_) => replace(system, alloc, path, bytes, None),
    }
}

// Replaces a regular file, or the one to which a link leads.
fn replace_target<R: Files>(
    system: &R,
    alloc: Global,
    path: &str,
    bytes: &[u8],
    permissions: Permissions,
) -> Result<(), StoreError> {
    if !is_link(system, path) {
        return replace(system, alloc, path, bytes, Some(permissions));
    }
    if leads_to_open_file(path) {
        return write_in_place(system, path, bytes);
    }
    match system.canonicalize(alloc, path) {
        Ok(target) => replace(system, alloc, target.as_str(), bytes, Some(permissions)),
        Err(_) => write_in_place(system, path, bytes),
    }
}

fn is_link<R: Files>(system: &R, path: &str) -> bool {
    match fs::symlink_metadata(system, path) {
        Ok(found) => found.is_symlink(),
        Err(_) => false,
    }
}

// Whether a link stands for an open file of the process, as /dev/stdout does, which others write too.
fn leads_to_open_file(link: &str) -> bool {
    link.starts_with("/dev/") || link.starts_with("/proc/")
}

fn write_in_place<R: Files>(system: &R, path: &str, bytes: &[u8]) -> Result<(), StoreError> {
    match fs::write(system, path, bytes) {
        Ok(()) => Ok(()),
        Err(_) => Err(StoreError::Failed),
    }
}

// Replaces a file with these permissions, or one that is missing; in place, where the folder or a mount keeps a new file out.
fn replace<R: Files>(
    system: &R,
    alloc: Global,
    path: &str,
    bytes: &[u8],
    permissions: Option<Permissions>,
) -> Result<(), StoreError> {
    let Err(error) = rename_over(system, alloc, path, bytes, permissions) else {
        return Ok(());
    };
    match error.kind() {
        ErrorKind::OutOfMemory => Err(StoreError::NoMemory),
        ErrorKind::PermissionDenied
        | ErrorKind::ReadOnlyFilesystem
        | ErrorKind::ResourceBusy
        | ErrorKind::CrossesDevices => write_in_place(system, path, bytes),
        _ => Err(StoreError::Failed),
    }
}

// Writes a new file and gives it the path. An old file stays as it was where that fails, or where it may not be written.
fn rename_over<R: Files>(
    system: &R,
    alloc: Global,
    path: &str,
    bytes: &[u8],
    permissions: Option<Permissions>,
) -> io::Result<()> {
    if permissions.is_some() {
        OpenOptions::new().write(true).open(system, path)?;
    }
    let (mut file, name) = create_beside(system, alloc, path)?;
    let done = match fill(&mut file, bytes, permissions) {
        Ok(()) => fs::rename(system, name.as_str(), path),
        Err(error) => Err(error),
    };
    if done.is_err() {
        let _ = fs::remove_file(system, name.as_str());
    }
    done
}

// A new file in the folder of a path, and its own path.
fn create_beside<R: Files>(
    system: &R,
    alloc: Global,
    path: &str,
) -> io::Result<(R::File, PathBuf)> {
    for number in 0..NAMES {
        let name = name_beside(alloc, path, number)?;
        match File::create_new(system, name.as_str()) {
            Ok(file) => return Ok((file, name)),
            Err(error) if error.kind() == ErrorKind::AlreadyExists => {}
            Err(error) => return Err(error),
        }
    }
    Err(Error::from(ErrorKind::AlreadyExists))
}

fn name_beside(alloc: Global, path: &str, number: u32) -> Result<PathBuf, AllocError> {
    let name = format!(in alloc; ".armsdt-{number}")?;
    Path::new(path).with_file_name(alloc, name.as_str())
}

// Gives a new file its permissions and its content. Some disks tell only by `sync_all` that they are full.
fn fill<F: Write + OpenFile>(
    file: &mut F,
    bytes: &[u8],
    permissions: Option<Permissions>,
) -> io::Result<()> {
    if let Some(permissions) = permissions {
        file.set_permissions(permissions)?;
    }
    file.write_all(bytes)?;
    file.sync_all()
}
