// What is printed of a sync.
ghost use Rattle.std.specs.Prelude.{◌≡◌, ◌≤◌, ◌+◌, ◌++◌, length, codes};
ghost use Rattle.sync_lines.specs.Syncing.{done_text, fit_text, installed, sync_text};

use bench_io::LineText;
use ec_types::Fit;
use flash_dev::{Geometry, Region};
use image_head::expected_digest;
use sync_engine::SyncEnd;

/// Appends what is said of a sync of this image that ended so.
pub fn add_end(end: SyncEnd, image: &[u8], geometry: Geometry, text: &mut LineText)
    requires { length text.old ≤ 200 }
    ensures text { text.new ≡ text.old ++ sync_text image.now geometry end }
    ensures short { length text.new ≤ length text.old + 150 }
{
    match end {
        SyncEnd::Done { wrote } => {
            text.append(done_text(wrote));
            text.append_hex(&installed(image, geometry));
        }
        SyncEnd::BadImage { fit } => {
            text.append(b"sync: image ");
            text.append(fit_text(fit));
        }
        SyncEnd::Locked { flags } => {
            text.append(b"sync: locked,");
            text.append_mask(b" flags ", flags);
        }
        SyncEnd::NoPower => text.append(b"sync: no power"),
        SyncEnd::Disturbed => text.append(b"sync: disturbed"),
        SyncEnd::NoMemory => {}
    }
}

// What is said of a sync that is done, before the digest.
fn done_text(wrote: bool) -> &'static [u8]
    ensures text { result.now ≡ done_text wrote }
    ensures short { length result.now ≤ 40 }
{
    if wrote {
        b"sync: done, RW written, sha256 "
    } else {
        b"sync: done, RW kept, sha256 "
    }
}

// The SHA-256 of RW with as much of the image in it as there is room for.
fn installed(image: &[u8], geometry: Geometry) -> [u8; 32]
    ensures { result ≡ installed image.now geometry }
{
    let (_, size) = geometry.range(Region::Update);
    expected_digest(&image[..image.len().min(size as usize)], geometry)
}

// What is said of an image that cannot be installed.
fn fit_text(fit: Fit) -> &'static [u8]
    ensures text { result.now ≡ fit_text fit }
    ensures short { length result.now ≤ 20 }
{
    match fit {
        Fit::Yes => b"fits",
        Fit::Short => b"too short",
        Fit::Long => b"too long",
        Fit::Vector => b"vector outside RW",
    }
}
