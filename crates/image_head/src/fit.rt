// Whether an image can be installed in RW.
ghost use Rattle.std.specs.Prelude.{◌≡◌, ◌≤◌, length};
ghost use Rattle.ec_model.specs.Ranges.{rw_range};
ghost use Rattle.ec_model.specs.Image.{fit_of};

use crate::vector_fits;
use ec_types::Fit;
use flash_dev::{Geometry, Region};

/// Whether an image can be installed in RW of such a flash, or the first reason why not: `Short` below 8 bytes, `Long`
/// above RW's size, `Vector` where its reset vector lies outside RW.
pub fn fits(image: &[u8], g: Geometry) -> Fit
    ensures fit { result ≡ fit_of image.now g }
    ensures within { result ≡ Fit.Yes → length image.now ≤ (rw_range g).size }
{
    let (at, size) = g.range(Region::Update);
    if image.len() < 8 {
        return Fit::Short;
    }
    if image.len() > size as usize {
        return Fit::Long;
    }
    let mut head = [0; 8];
    head.copy_from_slice(&image[..8]);
    if vector_fits(&head, at, size) {
        Fit::Yes
    } else {
        Fit::Vector
    }
}
