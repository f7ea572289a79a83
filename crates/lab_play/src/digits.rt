//! Digests in hex.

/// The hex digits of a SHA-256 digest.
pub fn digits_of(digest: &[u8; 32]) -> [u8; 64] {
    let mut digits = [0u8; 64];
    match hex::encode_to_slice(digest, &mut digits) {
        Ok(()) => digits,
        Err(_) => [b'?'; 64],
    }
}
