//! Files for images.

use command_line::lab_status::{Status, fail, no_memory};
use std::fs;
use std::fs::File;
use std::io::{ErrorKind, Write};
use std::rt::Files;

/// Writes an image into a new file. Where one is there already, it stays as it is.
pub(crate) fn write_image<R: Files<File = File> + AllocGlobal + Eprint>(
    rt: &R,
    folder: &str,
    number: u64,
    image: &[u8],
) -> Result<(), Status> {
    let Ok(path) = format!(in rt.alloc(); "{folder}/{number}.image") else {
        return Err(no_memory(rt, folder));
    };
    let path = path.as_str();
    let mut file = match File::create_new(rt, path) {
        Ok(file) => file,
        Err(error) if error.kind() == ErrorKind::AlreadyExists => {
            let what = "is there already, and stays as it is";
            return Err(fail(rt, what, path, Status::Refused));
        }
        Err(_) => return Err(fail(rt, "can't be made", path, Status::Device)),
    };
    if file.write_all(image).is_err() {
        let _ = fs::remove_file(rt, path);
        return Err(fail(rt, "can't be written", path, Status::Device));
    }
    Ok(())
}
