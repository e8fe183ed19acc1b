//! The head of a firmware image, and whether an image can be installed: its reset vector, its version, and the digest
//! that RW has once it holds the image.
//!
//! Below are the definitions of `ec_model` and the sizes of a flash of `flash_dev`; above are to be the controller's
//! jumps and GET_VERSION, and the host's sync. Each function is one definition of `ec_model`, exactly: `vector_fits` is
//! `vector_in`, `version_text` the definition of that name, `fits` is `fit_of`, and `expected_digest` is `expected`.
#![tactic(auto)]

mod digest;
mod fit;
mod vector;
mod version;

pub use digest::expected_digest;
pub use fit::fits;
pub use vector::vector_fits;
pub use version::version_text;

#[cfg(test)]
mod tests;
