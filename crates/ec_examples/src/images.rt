// Images, padded to the size of RW, and the digest that RW then has.
ghost use Rattle.std.specs.Prelude.{◌≡◌, ℕ, List, [], length, take, drop, replicate};
ghost use Rattle.sha2.specs.Sha256.{sha256};
ghost use Rattle.ec_types.specs.declared.image.Fit.TheVariants.{Yes};
ghost use Rattle.ec_model.specs.declared.live.HashView.TheVariants.{Busy, Done};
ghost use Rattle.ec_model.specs.Ranges.{rw_range, part};
ghost use Rattle.ec_model.specs.Table.{Table, Core};
ghost use Rattle.ec_model.specs.Hash.{hash_ticked};
ghost use Rattle.ec_model.specs.Image.{fit_of, padded, expected};
ghost use Rattle.ec_model.specs.Syncable.{HoldsImage};
ghost use Rattle.ec_examples.specs.Flashes.{image_v2};

/// An image of 1,000 bytes gets 31,768 bytes 0xFF for a flash of 65,536 bytes, and one of RW's size gets none.
pub fn padding_for_64_kib()
    ensures size { length (padded image_v2 65536) ≡ 32768 }
    ensures front { take 1000 (padded image_v2 65536) ≡ image_v2 }
    ensures rest { drop 1000 (padded image_v2 65536) ≡ replicate 31768 0xFF }
    ensures none { padded (replicate 32768 0x5A) 65536 ≡ replicate 32768 0x5A }
{}

/// For every flash an image that fits is padded to the size of RW, and one of that size stays as it is.
pub fn padded_images()
    ensures size { (image : List ℕ) (size : ℕ) → fit_of image size ≡ Yes → length (padded image size) ≡ (rw_range size).size }
    ensures full { (image : List ℕ) (size : ℕ) → length image ≡ (rw_range size).size → padded image size ≡ image }
{}

/// The digest that RW has to have is 32 bytes long. RW has it where it holds the image, and the last tick of a hash of RW with no
/// nonce shows it then.
pub fn expected_digests()
    ensures size { (image : List ℕ) (size : ℕ) → length (expected image size) ≡ 32 }
    ensures held { (table : Table) (image : List ℕ) → HoldsImage table image →
        sha256 (part (rw_range (length table.flash)) table.flash) ≡ expected image (length table.flash) }
    ensures shown { (core : Core) (image : List ℕ) → core.nonce ≡ [] →
        part (rw_range (length core.flash)) core.flash ≡ padded image (length core.flash) →
        (hash_ticked (Busy (rw_range (length core.flash)).at (rw_range (length core.flash)).size 1) core).live.hash ≡
        Done (rw_range (length core.flash)).at (rw_range (length core.flash)).size (expected image (length core.flash)) }
{}
