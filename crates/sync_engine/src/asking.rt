// The commands of a sync, each with what its reply gives.
ghost use Rattle.std.specs.Prelude.{◌≡◌, ◌≤◌, ◌+◌, ◌-◌, List, ℕ, [], length, drop, replicate};
ghost use Rattle.ec_types.specs.Tables.{packet_limit};
ghost use Rattle.ec_model.specs.Bodies.{
  flash_protect_ask,
  flash_write_ask,
  flash_erase_ask,
  region_info_ask,
  vboot_hash_ask,
  reboot_ask,
};
ghost use Rattle.ec_model.specs.Packet.{request_packet};
ghost use Rattle.ec_model.specs.Ranges.{rw_range};
ghost use Rattle.ec_packet.specs.Read.{request_of};
ghost use Rattle.exchange_laws.specs.Served.{IsPlain};
ghost use Rattle.host_transport.specs.Trying.{said_of, TriesOn};
ghost use Rattle.sync_rules.specs.Parts.{Colds};
ghost use Rattle.sync_rules.specs.Steps.{
  AsksLimits,
  AsksSize,
  AsksRegion,
  AsksCopy,
  Protects,
  StartsHash,
  AsksHash,
  Jumps,
  Confirms,
};
ghost use Rattle.sync_rules.specs.Requests.{erase_request, write_request, reboot_request};
ghost use Rattle.sync_engine.specs.OnWire.{Does};

use crate::buffers::Buffers;
use ec_params::command::{
    FLASH_ERASE, FLASH_INFO, FLASH_PROTECT, FLASH_REGION_INFO, FLASH_WRITE, GET_PROTOCOL_INFO,
    GET_VERSION, REBOOT_EC, VBOOT_HASH,
};
use ec_params::{
    FlashEraseAsk, FlashProtectAsk, FlashWriteAsk, RebootAsk, RegionInfoAsk, VbootHashAsk,
};
use ec_types::limit_of;
use ec_wire::Wire;
use flash_dev::{Geometry, Region};
use host_transport::{ColdEnd, Said, cold, command, reply_body};
use sync_rules::{
    Aim, Jump, Stop, confirm, if_success, jump_end, shown_flags, shown_hash, shown_limits,
    shown_region, shown_size, shows_rw,
};

// How many bytes the replies have.
const LIMITS_LENGTH: usize = 12;

const SIZE_LENGTH: usize = 24;

const REGION_LENGTH: usize = 8;

const VERSION_LENGTH: usize = 100;

const FLAGS_LENGTH: usize = 12;

const HASH_LENGTH: usize = 76;

// The number of the active region, which is RW. EC_FLASH_REGION_ACTIVE
const REGION_ACTIVE: u32 = 1;

// Sends a command, whose body stands in the buffers.
fn send<W: Wire>(
    w: &mut W,
    number: u16,
    version: u8,
    want: usize,
    floor: usize,
    buffers: &mut Buffers,
) -> Said
    requires sum { floor + 1500 ≤ usize.MAX }
    requires short { 8 + length buffers.old.body ≤ packet_limit (W.view w.old).bus }
    requires plain { IsPlain (request_packet number version buffers.old.body) }
    ensures tries { TriesOn floor (request_of number version buffers.old.body) want
        (said_of result (drop 8 buffers.new.reply)) (W.view w.old) (W.view w.new) }
{
    command(
        w,
        number,
        version,
        buffers.body.as_slice(),
        want,
        floor,
        &mut buffers.packet,
        &mut buffers.reply,
    )
}

/// GET_PROTOCOL_INFO: the most bytes of a packet have to be the bus's.
pub fn agree<W: Wire>(w: &mut W, floor: usize, buffers: &mut Buffers) -> Result<(), Stop>
    requires sum { floor + 1500 ≤ usize.MAX }
    ensures does { Does AsksLimits floor result (W.view w.old) (W.view w.new) }
{
    let limit = limit_of(w.kind());
    buffers.body.clear();
    let said = send(w, GET_PROTOCOL_INFO, 0, LIMITS_LENGTH, floor, buffers);
    if_success(said, shown_limits(reply_body(&buffers.reply), limit))
}

/// FLASH_INFO: the controller's flash.
pub fn ask_size<W: Wire>(w: &mut W, floor: usize, buffers: &mut Buffers) -> Result<Geometry, Stop>
    requires sum { floor + 1500 ≤ usize.MAX }
    ensures does { Does AsksSize floor result (W.view w.old) (W.view w.new) }
{
    buffers.body.clear();
    let said = send(w, FLASH_INFO, 1, SIZE_LENGTH, floor, buffers);
    if_success(said, shown_size(reply_body(&buffers.reply)))
}

/// FLASH_REGION_INFO: the active region has to be RW.
pub fn ask_region<W: Wire>(
    w: &mut W,
    floor: usize,
    geometry: Geometry,
    buffers: &mut Buffers,
) -> Result<(), Stop>
    requires sum { floor + 1500 ≤ usize.MAX }
    ensures does { Does (λ setting. AsksRegion setting geometry) floor result (W.view w.old) (W.view w.new) }
{
    buffers.body.clear();
    RegionInfoAsk {
        region: REGION_ACTIVE,
    }
    .write(&mut buffers.body);
    let said = send(w, FLASH_REGION_INFO, 1, REGION_LENGTH, floor, buffers);
    if_success(said, shown_region(reply_body(&buffers.reply), geometry))
}

/// GET_VERSION: whether RW runs.
pub fn ask_copy<W: Wire>(w: &mut W, floor: usize, buffers: &mut Buffers) -> Result<bool, Stop>
    requires sum { floor + 1500 ≤ usize.MAX }
    ensures does { Does AsksCopy floor result (W.view w.old) (W.view w.new) }
{
    buffers.body.clear();
    let said = send(w, GET_VERSION, 0, VERSION_LENGTH, floor, buffers);
    if_success(said, shows_rw(reply_body(&buffers.reply)))
}

/// FLASH_PROTECT, which sets these bits: the protection behind it.
pub fn protect<W: Wire>(
    w: &mut W,
    floor: usize,
    bits: u32,
    buffers: &mut Buffers,
) -> Result<u32, Stop>
    requires sum { floor + 1500 ≤ usize.MAX }
    ensures does { Does (λ setting. Protects setting bits) floor result (W.view w.old) (W.view w.new) }
{
    buffers.body.clear();
    FlashProtectAsk {
        mask: bits,
        flags: bits,
    }
    .write(&mut buffers.body);
    let said = send(w, FLASH_PROTECT, 1, FLAGS_LENGTH, floor, buffers);
    if_success(said, shown_flags(reply_body(&buffers.reply)))
}

// The body of VBOOT_HASH for all of RW, without a nonce.
fn write_hash_ask(cmd: u8, buffers: &mut Buffers)
    ensures asked { buffers.new.body ≡ vboot_hash_ask cmd 0 0 0 0xFFFFFFFD 0 (replicate 64 0) }
{
    buffers.body.clear();
    VbootHashAsk {
        cmd,
        hash_type: VbootHashAsk::TYPE_SHA256,
        nonce_size: 0,
        reserved: 0,
        offset: VbootHashAsk::OFFSET_RW,
        size: 0,
        nonce: [0; 64],
    }
    .write(&mut buffers.body);
}

/// VBOOT_HASH START.
pub fn start_hash<W: Wire>(w: &mut W, floor: usize, buffers: &mut Buffers) -> Result<(), Stop>
    requires sum { floor + 1500 ≤ usize.MAX }
    ensures does { Does StartsHash floor result (W.view w.old) (W.view w.new) }
{
    write_hash_ask(VbootHashAsk::START, buffers);
    confirm(send(w, VBOOT_HASH, 0, HASH_LENGTH, floor, buffers))
}

/// VBOOT_HASH GET: None while the hash is not finished, and then whether it is the one that is aimed at.
pub fn ask_hash<W: Wire>(
    w: &mut W,
    floor: usize,
    aim: &Aim,
    buffers: &mut Buffers,
) -> Result<Option<bool>, Stop>
    requires sum { floor + 1500 ≤ usize.MAX }
    ensures does { Does (λ setting. AsksHash setting aim.now) floor result (W.view w.old) (W.view w.new) }
{
    write_hash_ask(VbootHashAsk::GET, buffers);
    let said = send(w, VBOOT_HASH, 0, HASH_LENGTH, floor, buffers);
    if_success(said, shown_hash(reply_body(&buffers.reply), aim))
}

/// FLASH_ERASE of RW.
pub fn erase<W: Wire>(
    w: &mut W,
    floor: usize,
    geometry: Geometry,
    buffers: &mut Buffers,
) -> Result<(), Stop>
    requires sum { floor + 1500 ≤ usize.MAX }
    ensures does { Does (λ setting. Confirms setting (erase_request (rw_range geometry))) floor result
        (W.view w.old) (W.view w.new) }
{
    let (offset, size) = geometry.range(Region::Active);
    buffers.body.clear();
    FlashEraseAsk { offset, size }.write(&mut buffers.body);
    confirm(send(w, FLASH_ERASE, 0, 0, floor, buffers))
}

/// FLASH_WRITE of the piece that stands in the buffers.
pub fn write<W: Wire>(
    w: &mut W,
    floor: usize,
    offset: u32,
    buffers: &mut Buffers,
) -> Result<(), Stop>
    requires sum { floor + 1500 ≤ usize.MAX }
    requires short { 16 + length buffers.old.piece ≤ packet_limit (W.view w.old).bus }
    ensures does { Does (λ setting. Confirms setting (write_request offset buffers.old.piece)) floor result
        (W.view w.old) (W.view w.new) }
{
    buffers.body.clear();
    FlashWriteAsk {
        offset,
        bytes: buffers.piece.as_slice(),
    }
    .write(&mut buffers.body);
    confirm(send(w, FLASH_WRITE, 1, 0, floor, buffers))
}

// REBOOT_EC with a reply.
fn reboot<W: Wire>(w: &mut W, floor: usize, cmd: u8, buffers: &mut Buffers) -> Said
    requires sum { floor + 1500 ≤ usize.MAX }
    requires plain { IsPlain (request_packet 0xD2 0 (reboot_ask cmd 0)) }
    ensures tries { TriesOn floor (reboot_request cmd) 0 (said_of result (drop 8 buffers.new.reply)) (W.view w.old)
        (W.view w.new) }
{
    buffers.body.clear();
    RebootAsk { cmd, flags: 0 }.write(&mut buffers.body);
    send(w, REBOOT_EC, 0, 0, floor, buffers)
}

/// REBOOT_EC DISABLE_JUMP.
pub fn disable_jump<W: Wire>(w: &mut W, floor: usize, buffers: &mut Buffers) -> Result<(), Stop>
    requires sum { floor + 1500 ≤ usize.MAX }
    ensures does { Does (λ setting. Confirms setting (reboot_request 5)) floor result (W.view w.old) (W.view w.new) }
{
    confirm(reboot(w, floor, RebootAsk::DISABLE_JUMP, buffers))
}

/// REBOOT_EC JUMP_RW.
pub fn jump<W: Wire>(w: &mut W, floor: usize, buffers: &mut Buffers) -> Result<Jump, Stop>
    requires sum { floor + 1500 ≤ usize.MAX }
    ensures does { Does Jumps floor result (W.view w.old) (W.view w.new) }
{
    jump_end(reboot(w, floor, RebootAsk::JUMP_RW, buffers))
}

/// A restart of the controller.
pub fn restart<W: Wire>(w: &mut W, floor: usize, buffers: &mut Buffers) -> Result<(), Stop>
    requires sum { floor + 1500 ≤ usize.MAX }
    ensures does { Does Colds floor result (W.view w.old) (W.view w.new) }
{
    match cold(w, floor, &mut buffers.packet, &mut buffers.reply) {
        ColdEnd::Sent => Ok(()),
        ColdEnd::NoPower => Err(Stop::NoPower),
        ColdEnd::Upset | ColdEnd::Short => Err(Stop::Lost),
    }
}
