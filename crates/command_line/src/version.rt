//! The version of the product.

/// The version, as the file `VERSION` has it.
pub(crate) const VERSION: &str = "0.1.0";
