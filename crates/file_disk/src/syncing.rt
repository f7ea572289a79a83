//! Syncs of what isn't written through a disk: what other handles wrote, and the name of a new file.
use disk::DiskFault;
use std::fs;
use std::fs::File;
use std::io::ErrorKind;
use std::path::Path;
use std::rt::Files;

/// Syncs what other handles wrote. A file system that takes no writes has no such call, and nothing that waits.
pub(crate) fn sync_what_waits(file: &File) -> Result<(), DiskFault> {
    match file.sync_all() {
        Ok(()) => Ok(()),
        Err(error) => match error.kind() {
            ErrorKind::InvalidInput | ErrorKind::ReadOnlyFilesystem => Ok(()),
            _ => Err(DiskFault),
        },
    }
}

/// Syncs the folder that holds a file, so that the file's name survives a loss of power. Where the path is a link, that
/// is the folder where the link leads; to find it takes memory.
pub(crate) fn sync_folder<R: Files<File = File> + AllocGlobal>(
    rt: &R,
    path: &str,
) -> Result<(), DiskFault> {
    let found = fs::symlink_metadata(rt, path).map_err(|_| DiskFault)?;
    if found.is_symlink() {
        let real = fs::canonicalize(rt, path).map_err(|_| DiskFault)?;
        return sync_parent(rt, real.as_str());
    }
    sync_parent(rt, path)
}

fn sync_parent<R: Files<File = File>>(rt: &R, path: &str) -> Result<(), DiskFault> {
    let parent = match Path::new(path).parent() {
        Some(parent) => parent.to_string_lossy(),
        None => "",
    };
    let folder = if parent.is_empty() { "." } else { parent };
    let folder = File::open(rt, folder).map_err(|_| DiskFault)?;
    sync_what_waits(&folder)
}
