//! A file in memory at a moment.
ghost use Rattle.std.specs.Prelude.{◌≡◌, ◌+◌, ◌≤◌, ◌++◌, ◌∷◌, [], length, vec_len, IfOk};
ghost use Rattle.file_disk.specs.Files.{overwritten, resized};

use std::alloc::{AllocError, Global};

/// So many bytes from an offset on.
#[derive(Clone, Copy)]
pub struct Part {
    /// Where they begin.
    pub offset: usize,
    /// How many bytes.
    pub count: usize,
}

/// The bytes of a file, and which were written since the last sync.
#[derive(Drop)]
pub struct Moment {
    /// The bytes of the file.
    pub bytes: Vec<u8>,
    /// What was written since the last sync, in order.
    pub parts: Vec<Part>,
}

impl Moment {
    /// An empty file.
    pub fn empty(alloc: Global) -> Moment
        ensures bytes { result.bytes.items ≡ [] }
        ensures parts { result.parts.items ≡ [] }
    {
        Moment {
            bytes: Vec::new(alloc),
            parts: Vec::new(alloc),
        }
    }

    /// The same file with these bytes written over its own.
    pub fn written(&self, alloc: Global, offset: usize, bytes: &[u8]) -> Result<Moment, AllocError>
        requires { offset + length bytes.now ≤ vec_len self.now.bytes }
        ensures bytes { IfOk result (λ next. next.bytes.items ≡ overwritten self.now.bytes.items offset bytes.now) }
        ensures parts { IfOk result (λ next. next.parts.items ≡ self.now.parts.items ++ record { offset = offset; count = length bytes.now } ∷ []) }
    {
        let end = offset + bytes.len();
        let mut after = Vec::from_slice(alloc, &self.bytes[..offset])?;
        after.extend_from_slice(bytes)?;
        after.extend_from_slice(&self.bytes[end..])?;
        let mut parts = Vec::from_slice(alloc, &self.parts)?;
        parts.push(Part {
            offset,
            count: bytes.len(),
        })?;
        Ok(Moment {
            bytes: after,
            parts,
        })
    }

    /// The same file, cut off at a size, or gone on to it with zeros.
    pub fn resized(&self, alloc: Global, size: usize) -> Result<Moment, AllocError>
        ensures bytes { IfOk result (λ next. next.bytes.items ≡ resized self.now.bytes.items size) }
    {
        let mut bytes = Vec::from_slice(alloc, &self.bytes)?;
        bytes.resize(size, 0)?;
        Ok(Moment {
            bytes,
            parts: Vec::from_slice(alloc, &self.parts)?,
        })
    }

    /// The same file on its medium.
    pub fn synced(&self, alloc: Global) -> Result<Moment, AllocError>
        ensures bytes { IfOk result (λ next. next.bytes.items ≡ self.now.bytes.items) }
        ensures parts { IfOk result (λ next. next.parts.items ≡ []) }
    {
        Ok(Moment {
            bytes: Vec::from_slice(alloc, &self.bytes)?,
            parts: Vec::new(alloc),
        })
    }
}
