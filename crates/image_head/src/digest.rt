// The digest of RW once it holds an image.
ghost use Rattle.std.specs.Prelude.{◌≡◌, ◌≤◌, ℕ, List, ◌++◌, length, replicate};
ghost use Rattle.sha2.specs.Hashers.{Holds256};
ghost use Rattle.ec_model.specs.Ranges.{rw_range};
ghost use Rattle.ec_model.specs.Image.{expected};

use flash_dev::{Geometry, Region};
use sha2::{Digest, Sha256};

/// The SHA-256 that RW has once it holds the image: that of the image, padded with 0xFF to the size of RW. The image
/// has at most that size, and is not copied.
pub fn expected_digest(image: &[u8], g: Geometry) -> [u8; 32]
    requires { length image.now ≤ (rw_range g).size }
    ensures { result ≡ expected image.now g }
{
    let (_, size) = g.range(Region::Update);
    let mut hasher = Sha256::new();
    hasher.update(image);
    update_blank(&mut hasher, size as usize - image.len());
    hasher.finalize()
}

// Hashes `count` erased bytes, a block of SHA-256 at a time.
fn update_blank(hasher: &mut Sha256, count: usize)
    ensures { (message : List ℕ) → Holds256 hasher.old message → Holds256 hasher.new (message ++ replicate count 0xFF) }
{
    let blank = [0xFF; 64];
    for _turn in 0..count / 64 {
        hasher.update(&blank);
    }
    hasher.update(&blank[..count % 64]);
}
