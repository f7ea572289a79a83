//! The exit statuses 0 to 3.

/// How the program ends; its number is the exit status of the process (this project's profile).
#[derive(Clone, Copy)]
pub enum Status {
    /// All was done and written.
    Done = 0,
    /// The input was refused, or the answer could not be written.
    Refused = 1,
    /// The arguments are none of the program's.
    Usage = 2,
    /// A file could not be opened, made or read, or the device failed later.
    Device = 3,
}
