// What the replies of a sync's commands say.
ghost use Rattle.std.specs.Prelude.{◌≡◌, ◌≤◌, ◌&&◌, ◌==◌, List, ℕ, length, take, drop, IfOk};
ghost use Rattle.ec_types.specs.LittleEndian.{u32_at};
ghost use Rattle.ec_model.specs.Ranges.{rw_range};
ghost use Rattle.host_transport.specs.Trying.{said_of};
ghost use Rattle.sync_rules.specs.Parts.{on_success};
ghost use Rattle.sync_rules.specs.Replies.{
  confirmed,
  given_if,
  limits_told,
  size_told,
  region_told,
  runs_rw_told,
  flags_told,
  hash_told,
  jump_told,
  last_jump_told,
  is_locked,
  unlocked_told,
  aim_of,
};

use crate::ending::{Aim, Jump, Stop};
use ec_params::{
    FlashInfoSay1, FlashProtectSay, IMAGE_RW, ProtoInfoSay, RegionInfoSay, VbootHashSay, VersionSay,
};
use ec_types::{Fit, protection, status};
use flash_dev::{Geometry, Region};
use host_transport::Said;
use image_head::{expected_digest, fits};

/// What a reply tells, where its command was answered with success; and else why the round stops.
pub fn if_success<T: Copy>(said: Said, told: Result<T, Stop>) -> Result<T, Stop>
    ensures told { (body : List ℕ) → result ≡ on_success (λ _. told) (said_of said body) }
{
    match said {
        Said::Ok | Said::Status(status::SUCCESS) => told,
        Said::NoPower => Err(Stop::NoPower),
        Said::Status(_) | Said::Upset | Said::Short => Err(Stop::Lost),
    }
}

/// A success alone.
pub fn confirm(said: Said) -> Result<(), Stop>
    ensures told { (body : List ℕ) → result ≡ on_success confirmed (said_of said body) }
{
    if_success(said, Ok(()))
}

/// Whether the most bytes of a request and of a response are `limit`, by the body of GET_PROTOCOL_INFO's reply.
pub fn shown_limits(body: &[u8], limit: u16) -> Result<(), Stop>
    ensures told { result ≡ limits_told limit body.now }
{
    if body.len() != 12 {
        return Err(Stop::Lost);
    }
    let say = ProtoInfoSay::from_bytes(body);
    if say.max_request == limit && say.max_response == limit {
        Ok(())
    } else {
        Err(Stop::Lost)
    }
}

/// The controller's flash, by the body of FLASH_INFO's reply.
pub fn shown_size(body: &[u8]) -> Result<Geometry, Stop>
    ensures told { result ≡ size_told body.now }
{
    if body.len() != 24 {
        return Err(Stop::Lost);
    }
    let say = FlashInfoSay1::from_bytes(body);
    match Geometry::new(say.size) {
        Some(geometry) => Ok(geometry),
        None => Err(Stop::Lost),
    }
}

/// Whether the region is RW, by the body of FLASH_REGION_INFO's reply.
pub fn shown_region(body: &[u8], geometry: Geometry) -> Result<(), Stop>
    ensures told { result ≡ region_told geometry body.now }
{
    if body.len() != 8 {
        return Err(Stop::Lost);
    }
    let say = RegionInfoSay::from_bytes(body);
    let (at, size) = geometry.range(Region::Active);
    if say.offset == at && say.size == size {
        Ok(())
    } else {
        Err(Stop::Lost)
    }
}

// Whether RW runs.
fn runs_rw(say: &VersionSay) -> bool
    ensures runs { result ≡ (say.now.current == 2) }
    ensures ro { length say.now.ro ≡ 32 }
    ensures rw { length say.now.rw ≡ 32 }
    ensures reserved { length say.now.reserved ≡ 32 }
{
    say.current == IMAGE_RW
}

/// Whether RW runs, by the body of GET_VERSION's reply.
pub fn shows_rw(body: &[u8]) -> Result<bool, Stop>
    ensures told { result ≡ runs_rw_told body.now }
{
    if body.len() != 100 {
        return Err(Stop::Lost);
    }
    Ok(runs_rw(&VersionSay::from_bytes(body)))
}

/// The bits of the protection, by the body of FLASH_PROTECT's reply.
pub fn shown_flags(body: &[u8]) -> Result<u32, Stop>
    ensures told { result ≡ flags_told body.now }
{
    if body.len() != 12 {
        return Err(Stop::Lost);
    }
    Ok(FlashProtectSay::from_bytes(body).flags)
}

// Whether a finished hash is shown, of all of RW.
fn is_of_rw(say: &VbootHashSay, geometry: Geometry) -> bool
    ensures { result ≡ ((say.now.status == 1) && (say.now.offset == (rw_range geometry).at)
        && (say.now.size == (rw_range geometry).size)) }
{
    let (at, size) = geometry.range(Region::Active);
    say.status == VbootHashSay::STATUS_DONE && say.offset == at && say.size == size
}

/// None while the hash is not finished, and then whether it is the one that is aimed at, by the body of VBOOT_HASH's
/// reply. A hash of anything but RW stops the round.
pub fn shown_hash(body: &[u8], aim: &Aim) -> Result<Option<bool>, Stop>
    ensures told { result ≡ hash_told aim.now body.now }
{
    if body.len() != 76 {
        return Err(Stop::Lost);
    }
    let say = VbootHashSay::from_bytes(body);
    if say.status == VbootHashSay::STATUS_BUSY {
        return Ok(None);
    }
    if is_of_rw(&say, aim.geometry) {
        Ok(Some(say.digest[..32] == aim.digest[..]))
    } else {
        Err(Stop::Lost)
    }
}

/// What has to be, and else stops the round.
pub fn required(is_so: bool) -> Result<(), Stop>
    ensures told { result ≡ given_if is_so tt }
{
    if is_so { Ok(()) } else { Err(Stop::Lost) }
}

/// How a jump to RW was answered.
pub fn jump_end(said: Said) -> Result<Jump, Stop>
    ensures told { (body : List ℕ) → result ≡ jump_told (said_of said body) }
{
    match said {
        Said::Ok | Said::Status(status::SUCCESS) => Ok(Jump::Jumped),
        Said::Status(status::ACCESS_DENIED) => Ok(Jump::Denied),
        Said::Status(status::ERROR) => Ok(Jump::Failed),
        Said::NoPower => Err(Stop::NoPower),
        Said::Status(_) | Said::Upset | Said::Short => Err(Stop::Lost),
    }
}

/// Whether RW runs behind the second jump, or that failed. It may not be denied again.
pub fn last_jump_end(jump: Jump) -> Result<bool, Stop>
    ensures told { result ≡ last_jump_told jump }
{
    match jump {
        Jump::Jumped => Ok(true),
        Jump::Denied => Err(Stop::Lost),
        Jump::Failed => Ok(false),
    }
}

/// Whether the whole flash is protected, by the bits of the protection.
pub fn is_locked(flags: u32) -> bool
    ensures locked { result ≡ is_locked flags }
{
    flags & protection::ALL_NOW != 0
}

/// The protection behind a restart: the whole flash is open, or the lock is stored, under an asserted pin.
pub fn unlocked(flags: u32) -> Result<(), Stop>
    ensures told { result ≡ unlocked_told flags }
{
    if !is_locked(flags) {
        Ok(())
    } else if flags & protection::PIN_ASSERTED != 0 && flags & protection::ALL_AT_BOOT != 0 {
        Err(Stop::Locked(flags))
    } else {
        Err(Stop::Lost)
    }
}

/// What a sync of the image aims at in the controller's flash, where the image fits.
pub fn aim_at(image: &[u8], geometry: Geometry) -> Result<Aim, Stop>
    ensures told { result ≡ aim_of image.now geometry }
    ensures within { IfOk result (λ aim. length image.now ≤ (rw_range aim.geometry).size) }
{
    match fits(image, geometry) {
        Fit::Yes => Ok(Aim {
            geometry,
            digest: expected_digest(image, geometry),
        }),
        fit => Err(Stop::Misfit(fit)),
    }
}
