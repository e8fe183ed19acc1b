// The row of the command that shows, starts and drops the hash.
ghost use Rattle.std.specs.Prelude.{◌≡◌, ◌≤◌, ◌+◌, ◌++◌, [], false, length, replicate, option_map, IfSome};
ghost use Rattle.flash_dev.specs.Told.{Changes};
ghost use Rattle.flash_dev.specs.declared.hurt.Hurt.TheVariants.{Whole};
ghost use Rattle.ec_model.specs.Ranges.{Range};
ghost use Rattle.ec_model.specs.HashRow.{first_of_region, hash_range, hash_bytes, hash_start_row, vboot_hash_row};
ghost use Rattle.ec_boot.specs.States.{told_core};
ghost use Rattle.command_table.specs.Asks.{hash_body};
ghost use Rattle.command_table.specs.Hashed.{range_pair, hash_say};
ghost use Rattle.command_table.specs.Leaves.{Leaves, KeepsDevice};

use crate::Reply;
use crate::refusals::within;
use ec_boot::Running;
use ec_model::HashView;
use ec_params::{VbootHashAsk, VbootHashSay};
use ec_types::status;
use flash_dev::{Geometry, Region};

// How many bytes a digest has, and how many the reply has for one.
const DIGEST_LENGTH: usize = VbootHashSay::DIGEST_SIZE as usize;

const DIGEST_PLACE: usize = 64;

// The first bytes of a region, or all of it at size 0.
fn first_of(region: (u32, u32), size: u32) -> Option<(u32, u32)>
    ensures { result ≡ option_map range_pair (first_of_region (record { at = region.0; size = region.1 }) size) }
{
    let (at, extent) = region;
    match size {
        0 => Some((at, extent)),
        _ if size <= extent => Some((at, size)),
        _ => None,
    }
}

// The range that an offset and a size name.
fn range_of(geometry: Geometry, offset: u32, size: u32) -> Option<(u32, u32)>
    ensures range { result ≡ option_map range_pair (hash_range geometry offset size) }
    ensures some { IfSome result (λ range. 1 ≤ range.1) }
    ensures inside { IfSome result (λ range. range.0 + range.1 ≤ geometry) }
{
    match offset {
        VbootHashAsk::OFFSET_RO => first_of(geometry.range(Region::Ro), size),
        VbootHashAsk::OFFSET_RW => first_of(geometry.range(Region::Active), size),
        _ if size != 0 && within(geometry.size(), offset, size) => Some((offset, size)),
        _ => None,
    }
}

// A digest with zeros behind it.
fn padded(digest: &[u8; DIGEST_LENGTH]) -> [u8; DIGEST_PLACE]
    ensures { result ≡ digest.now ++ replicate 32 0 }
{
    let mut bytes = [0; DIGEST_PLACE];
    bytes[..DIGEST_LENGTH].copy_from_slice(digest);
    bytes
}

// The reply where no digest is shown.
fn none_shown(status: u8) -> VbootHashSay
    ensures { result ≡ record { status = status; hash_type = 0; digest_size = 0; reserved = 0; offset = 0; size = 0; digest = replicate 64 0 } }
{
    VbootHashSay {
        status,
        hash_type: 0,
        digest_size: 0,
        reserved: 0,
        offset: 0,
        size: 0,
        digest: [0; DIGEST_PLACE],
    }
}

// The reply that shows a hash.
fn shown(hash: &HashView) -> VbootHashSay
    ensures { hash_say result ≡ hash_bytes hash.now }
{
    match hash {
        HashView::Idle => none_shown(VbootHashSay::STATUS_NONE),
        HashView::Busy { .. } => none_shown(VbootHashSay::STATUS_BUSY),
        HashView::Done { at, size, digest } => VbootHashSay {
            status: VbootHashSay::STATUS_DONE,
            hash_type: VbootHashSay::TYPE_SHA256,
            digest_size: VbootHashSay::DIGEST_SIZE,
            reserved: 0,
            offset: *at,
            size: *size,
            digest: padded(digest),
        },
    }
}

// A hash is shown.
fn show(hash: &HashView, reply: &mut Reply)
    ensures status { reply.new.status ≡ 0 }
    ensures body { reply.new.body ≡ hash_bytes hash.now }
    ensures hurt { reply.new.hurt ≡ Whole }
    ensures short { length reply.new.body ≤ 76 }
{
    let say = shown(hash);
    reply.succeed();
    say.write(&mut reply.body);
}

// START: a hash of a range begins, with a nonce in front, and is shown.
fn start<R: Running>(state: &mut R, ask: &VbootHashAsk, reply: &mut Reply)
    ensures leaves { Changes (λ before after.
        Leaves reply.new.hurt (hash_start_row before (hash_body ask.now)) false []
        (R.run state.old).device (R.run state.new).device before after reply.new.status reply.new.body)
        (told_core (R.run state.old)) (told_core (R.run state.new)) }
    ensures device { KeepsDevice reply.new.hurt (R.run state.old) (R.run state.new) }
    ensures short { length reply.new.body ≤ 76 }
{
    if ask.hash_type != VbootHashAsk::TYPE_SHA256 || ask.nonce_size > VbootHashAsk::LONGEST_NONCE {
        reply.end_with(status::INVALID_PARAMETER);
        return;
    }
    match range_of(state.geometry(), ask.offset, ask.size) {
        Some((at, size)) => {
            state.hash_start(at, size, &ask.nonce[..usize::from(ask.nonce_size)]);
            show(&state.live().hash, reply);
        }
        None => reply.end_with(status::INVALID_PARAMETER),
    }
}

/// VBOOT_HASH.
pub fn vboot_hash<R: Running>(state: &mut R, ask: &VbootHashAsk, reply: &mut Reply)
    ensures leaves { Changes (λ before after.
        Leaves reply.new.hurt (vboot_hash_row before (hash_body ask.now)) false []
        (R.run state.old).device (R.run state.new).device before after reply.new.status reply.new.body)
        (told_core (R.run state.old)) (told_core (R.run state.new)) }
    ensures device { KeepsDevice reply.new.hurt (R.run state.old) (R.run state.new) }
    ensures short { length reply.new.body ≤ 76 }
{
    match ask.cmd {
        VbootHashAsk::GET => show(&state.live().hash, reply),
        VbootHashAsk::ABORT => {
            state.hash_abort();
            reply.succeed();
        }
        VbootHashAsk::START => start(state, ask, reply),
        _ => reply.end_with(status::INVALID_PARAMETER),
    }
}
