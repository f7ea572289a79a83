//! Bytes as hexadecimal digits.

use std::{fmt, slice, str};

/// Bytes as hexadecimal digits, two a byte.
#[derive(Clone, Copy)]
pub struct HexText<'a> {
    bytes: &'a [u8],
    is_upper: bool,
}

impl<'a> HexText<'a> {
    /// In digits of lower case.
    pub fn lower(bytes: &'a [u8]) -> HexText<'a> {
        HexText {
            bytes,
            is_upper: false,
        }
    }

    /// In digits of upper case.
    pub fn upper(bytes: &'a [u8]) -> HexText<'a> {
        HexText {
            bytes,
            is_upper: true,
        }
    }
}

impl fmt::Display for HexText<'_> {
    fn fmt<W: fmt::Write>(&self, f: &mut fmt::Formatter<W>) -> fmt::Result {
        let mut digits = [0; 2];
        for byte in self.bytes {
            hex::encode_to_slice(slice::from_ref(byte), &mut digits).map_err(|_| fmt::Error)?;
            if self.is_upper {
                digits = digits.map(|digit| digit.to_ascii_uppercase());
            }
            f.write_str(str::from_utf8(&digits).map_err(|_| fmt::Error)?)?;
        }
        Ok(())
    }
}
