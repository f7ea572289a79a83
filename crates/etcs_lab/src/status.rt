//! How the program ends, and what it says on standard error.

pub(crate) use command_line::lab_status::{
    Status, answered_args, fail, no_memory, refused_args, reported, unformatted, unread,
    unread_for, unwritten,
};
