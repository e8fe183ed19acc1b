//! What a drill draws: for each of its rounds an image that is to be synced, and a cut of power.
//!
//! Below stands `flash_dev`, for the size of a flash; above stands `drill_lines`, whose drills sync these images and arm
//! these cuts. The contract that matters is that of `Generator::draw_round`: the round's image, its cut and the number
//! behind it are those of the definitions, so a drill's number determines all of its rounds.
#![tactic(auto)]

mod generator;
mod image;
mod laws;
mod rounds;

pub use generator::Generator;
pub use image::DrillImage;
pub use laws::rounds_have_images_of_their_own;
pub use rounds::DrillCut;

#[cfg(test)]
mod tests;
