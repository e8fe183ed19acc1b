// What replies give to the text of a line.
ghost use Rattle.std.specs.Prelude.{◌≡◌, ◌≤◌, ◌+◌, ◌*◌, ◌++◌, ℕ, List, length, codes};
ghost use Rattle.std.specs.Fmt.{decimal};
ghost use Rattle.ec_types.specs.LittleEndian.{u32_at};
ghost use Rattle.ectool_lines.specs.Sending.{most_text, columns_of, HasColumns, IsReply};
ghost use Rattle.ectool_lines.specs.Texts.{
  reply_text,
  hex_text,
  image_text,
  version_text,
  chip_text,
  proto_info_text,
  flash_info_text,
  protection_text,
  hash_text,
  hash_reply,
  sysinfo_text,
};
ghost use Rattle.ectool_lines.specs.declared.tool.Tool.TheVariants as tool;

use crate::Tool;
use bench_io::LineText;
use ec_params::{
    ChipSay, CmdVersionsSay, FlashInfoSay1, FlashProtectSay, ProtoInfoSay, RegionInfoSay,
    SysinfoSay, VbootHashSay, VersionSay,
};

// The most bytes of columns in a reply that a text tells.
const MOST_COLUMNS: usize = 100;

impl<'a> Tool<'a> {
    // How many bytes of columns a reply has that the text tells; 0 where it tells none, or just the bytes.
    fn columns(&self) -> usize
        ensures columns { result ≡ columns_of self.now }
        ensures few { result ≤ 100 }
    {
        match self {
            Tool::Version => 100,
            Tool::ChipInfo => 96,
            Tool::CmdVersions { .. } => 4,
            Tool::ProtoInfo | Tool::FlashProtect { .. } | Tool::Sysinfo => 12,
            Tool::FlashInfo => 24,
            Tool::RegionInfo { .. } => 8,
            Tool::Hash | Tool::HashStart { .. } | Tool::HashRange { .. } => 76,
            _ => 0,
        }
    }
}

/// Appends what the reply to a command of the line gives to its text. A command whose saved status was asked for has an
/// empty reply, whose columns are told as zeros.
pub(crate) fn add_reply(out: &mut LineText, tool: &Tool<'_>, reply: &[u8])
    requires sized { IsReply tool.now reply.now }
    requires few { length reply.now ≤ 544 }
    requires fits { length out.old + most_text tool.now (length reply.now) ≤ 12000 }
    ensures text { out.new ≡ out.old ++ reply_text tool.now reply.now }
    ensures long { length out.new ≤ length out.old + most_text tool.now (length reply.now) }
{
    let columns = tool.columns();
    if reply.len() < columns {
        add_columns(out, tool, &[0; MOST_COLUMNS][..columns]);
    } else {
        add_columns(out, tool, reply);
    }
}

// Appends what a reply with all its columns gives.
fn add_columns(out: &mut LineText, tool: &Tool<'_>, reply: &[u8])
    requires sized { HasColumns tool.now reply.now }
    requires few { length reply.now ≤ 544 }
    requires fits { length out.old + most_text tool.now (length reply.now) ≤ 12000 }
    ensures text { out.new ≡ out.old ++ reply_text tool.now reply.now }
    ensures long { length out.new ≤ length out.old + most_text tool.now (length reply.now) }
{
    match tool {
        Tool::Hello
        | Tool::FlashWrite { .. }
        | Tool::FlashErase { .. }
        | Tool::HashAbort
        | Tool::Reboot { .. }
        | Tool::Resend => {}
        Tool::Version => add_version(out, reply),
        Tool::ChipInfo => add_chip(out, reply),
        Tool::CmdVersions { .. } => add_versions(out, reply),
        Tool::ProtoInfo => add_proto_info(out, reply),
        Tool::FlashInfo => add_flash_info(out, reply),
        Tool::RegionInfo { .. } => add_range(out, reply),
        Tool::FlashProtect { .. } => add_protection(out, reply),
        Tool::Hash | Tool::HashStart { .. } | Tool::HashRange { .. } => add_hash(out, reply),
        Tool::Sysinfo => add_sysinfo(out, reply),
        Tool::RebootCold => add_reset_flags(out, reply),
        Tool::FlashRead { .. } | Tool::Test { .. } => out.append_hex(reply),
    }
}

// GET_VERSION's reply.
fn add_version(out: &mut LineText, reply: &[u8])
    requires sized { length reply.now ≡ 100 }
    requires fits { length out.old ≤ 11500 }
    ensures text { out.new ≡ out.old ++ reply_text tool.Version reply.now }
    ensures long { length out.new ≤ length out.old + 200 }
{
    version(out, &VersionSay::from_bytes(reply));
}

fn version(out: &mut LineText, say: &VersionSay)
    requires fits { length out.old ≤ 11500 }
    ensures text { out.new ≡ out.old ++ version_text say.now.ro say.now.rw say.now.current }
    ensures ro { length say.now.ro ≡ 32 }
    ensures rw_version { length say.now.rw ≡ 32 }
    ensures reserved { length say.now.reserved ≡ 32 }
    ensures long { length out.new ≤ length out.old + 200 }
{
    out.append_field(b"RO version:    ", &say.ro);
    out.append_field(b"\nRW version:    ", &say.rw);
    out.append(b"\nFirmware copy: ");
    out.append(image_name(say.current));
}

// The name of an image, by its number.
fn image_name(current: u32) -> &'static [u8]
    ensures name { result.now ≡ image_text current }
    ensures short { length result.now ≡ 2 }
{
    if current == 1 { b"RO" } else { b"RW" }
}

// GET_CHIP_INFO's reply.
fn add_chip(out: &mut LineText, reply: &[u8])
    requires sized { length reply.now ≡ 96 }
    requires fits { length out.old ≤ 11500 }
    ensures text { out.new ≡ out.old ++ reply_text tool.ChipInfo reply.now }
    ensures long { length out.new ≤ length out.old + 200 }
{
    chip(out, &ChipSay::from_bytes(reply));
}

fn chip(out: &mut LineText, say: &ChipSay)
    requires fits { length out.old ≤ 11500 }
    ensures text { out.new ≡ out.old ++ chip_text say.now.vendor say.now.name say.now.revision }
    ensures vendor { length say.now.vendor ≡ 32 }
    ensures name { length say.now.name ≡ 32 }
    ensures revision { length say.now.revision ≤ 32 }
    ensures long { length out.new ≤ length out.old + 200 }
{
    out.append_field(b"vendor ", &say.vendor);
    out.append_field(b" name ", &say.name);
    out.append_field(b" revision ", &say.revision);
}

// GET_CMD_VERSIONS' reply.
fn add_versions(out: &mut LineText, reply: &[u8])
    requires sized { length reply.now ≡ 4 }
    requires fits { length out.old ≤ 11500 }
    ensures text { out.new ≡ out.old ++ (codes "versions " ++ hex_text (u32_at 0 reply.now)) }
    ensures long { length out.new ≤ length out.old + 200 }
{
    let say = CmdVersionsSay::from_bytes(reply);
    out.append_mask(b"versions ", say.mask);
}

// GET_PROTOCOL_INFO's reply.
fn add_proto_info(out: &mut LineText, reply: &[u8])
    requires sized { length reply.now ≡ 12 }
    requires fits { length out.old ≤ 11500 }
    ensures text { out.new ≡ out.old ++ reply_text tool.ProtoInfo reply.now }
    ensures long { length out.new ≤ length out.old + 200 }
{
    proto_info(out, &ProtoInfoSay::from_bytes(reply));
}

fn proto_info(out: &mut LineText, say: &ProtoInfoSay)
    requires fits { length out.old ≤ 11500 }
    ensures text { out.new ≡ out.old ++ proto_info_text say.now.versions say.now.max_request say.now.max_response
        say.now.flags }
    ensures long { length out.new ≤ length out.old + 200 }
{
    out.append_mask(b"versions ", say.versions);
    out.append_number(b" request ", u32::from(say.max_request));
    out.append_number(b" response ", u32::from(say.max_response));
    out.append_mask(b" flags ", say.flags);
}

// FLASH_INFO's reply.
fn add_flash_info(out: &mut LineText, reply: &[u8])
    requires sized { length reply.now ≡ 24 }
    requires fits { length out.old ≤ 11500 }
    ensures text { out.new ≡ out.old ++ reply_text tool.FlashInfo reply.now }
    ensures long { length out.new ≤ length out.old + 200 }
{
    flash_info(out, &FlashInfoSay1::from_bytes(reply));
}

fn flash_info(out: &mut LineText, say: &FlashInfoSay1)
    requires fits { length out.old ≤ 11500 }
    ensures text { out.new ≡ out.old ++ flash_info_text say.now.size say.now.write say.now.erase say.now.protect
        say.now.ideal say.now.flags }
    ensures long { length out.new ≤ length out.old + 200 }
{
    out.append_number(b"size ", say.size);
    out.append_number(b" write ", say.write);
    out.append_number(b" erase ", say.erase);
    out.append_number(b" protect ", say.protect);
    out.append_number(b" ideal ", say.ideal);
    out.append_mask(b" flags ", say.flags);
}

// FLASH_REGION_INFO's reply.
fn add_range(out: &mut LineText, reply: &[u8])
    requires sized { length reply.now ≡ 8 }
    requires fits { length out.old ≤ 11500 }
    ensures text { out.new ≡ out.old ++ (codes "offset " ++ decimal (u32_at 0 reply.now) ++ codes " size " ++ decimal
        (u32_at 4 reply.now)) }
    ensures long { length out.new ≤ length out.old + 200 }
{
    let say = RegionInfoSay::from_bytes(reply);
    out.append_number(b"offset ", say.offset);
    out.append_number(b" size ", say.size);
}

// FLASH_PROTECT's reply.
fn add_protection(out: &mut LineText, reply: &[u8])
    requires sized { length reply.now ≡ 12 }
    requires fits { length out.old ≤ 11500 }
    ensures text { out.new ≡ out.old ++ protection_text (u32_at 0 reply.now) (u32_at 4 reply.now) (u32_at 8 reply.now) }
    ensures long { length out.new ≤ length out.old + 200 }
{
    protection(out, &FlashProtectSay::from_bytes(reply));
}

fn protection(out: &mut LineText, say: &FlashProtectSay)
    requires fits { length out.old ≤ 11500 }
    ensures text { out.new ≡ out.old ++ protection_text say.now.flags say.now.valid say.now.writable }
    ensures long { length out.new ≤ length out.old + 200 }
{
    out.append_mask(b"flags ", say.flags);
    out.append_mask(b" valid ", say.valid);
    out.append_mask(b" writable ", say.writable);
}

// VBOOT_HASH's reply.
fn add_hash(out: &mut LineText, reply: &[u8])
    requires sized { length reply.now ≡ 76 }
    requires fits { length out.old ≤ 11500 }
    ensures text { out.new ≡ out.old ++ hash_reply reply.now }
    ensures long { length out.new ≤ length out.old + 200 }
{
    hash(out, &VbootHashSay::from_bytes(reply));
}

fn hash(out: &mut LineText, say: &VbootHashSay)
    requires fits { length out.old ≤ 11500 }
    ensures text { out.new ≡ out.old ++ hash_text say.now.status say.now.offset say.now.size say.now.digest }
    ensures long { length out.new ≤ length out.old + 200 }
{
    match say.status {
        VbootHashSay::STATUS_DONE => done_hash(out, say),
        VbootHashSay::STATUS_BUSY => out.append(b"hash busy"),
        _ => out.append(b"hash none"),
    }
}

// A hash that is done.
fn done_hash(out: &mut LineText, say: &VbootHashSay)
    requires fits { length out.old ≤ 11500 }
    ensures text { out.new ≡ out.old ++ hash_text 1 say.now.offset say.now.size say.now.digest }
    ensures long { length out.new ≤ length out.old + 200 }
{
    out.append(b"hash done");
    out.append_number(b" offset ", say.offset);
    out.append_number(b" size ", say.size);
    out.append(b" sha256 ");
    out.append_hex(&say.digest[..32]);
}

// SYSINFO's reply.
fn add_sysinfo(out: &mut LineText, reply: &[u8])
    requires sized { length reply.now ≡ 12 }
    requires fits { length out.old ≤ 11500 }
    ensures text { out.new ≡ out.old ++ reply_text tool.Sysinfo reply.now }
    ensures long { length out.new ≤ length out.old + 200 }
{
    sysinfo(out, &SysinfoSay::from_bytes(reply));
}

fn sysinfo(out: &mut LineText, say: &SysinfoSay)
    requires fits { length out.old ≤ 11500 }
    ensures text { out.new ≡ out.old ++ sysinfo_text say.now.reset_flags say.now.current say.now.flags }
    ensures long { length out.new ≤ length out.old + 200 }
{
    out.append_mask(b"reset flags ", say.reset_flags);
    out.append(b"\ncopy ");
    out.append(image_name(say.current));
    out.append_mask(b"\nflags ", say.flags);
}

// SYSINFO's reply behind a restart, which has none itself.
fn add_reset_flags(out: &mut LineText, reply: &[u8])
    requires sized { HasColumns tool.RebootCold reply.now }
    requires fits { length out.old ≤ 11500 }
    ensures text { out.new ≡ out.old ++ reply_text tool.RebootCold reply.now }
    ensures long { length out.new ≤ length out.old + 200 }
{
    if reply.is_empty() {
        return;
    }
    reset_flags(out, &SysinfoSay::from_bytes(reply));
}

fn reset_flags(out: &mut LineText, say: &SysinfoSay)
    requires fits { length out.old ≤ 11500 }
    ensures text { out.new ≡ out.old ++ (codes "reset flags " ++ hex_text say.now.reset_flags) }
    ensures long { length out.new ≤ length out.old + 200 }
{
    out.append_mask(b"reset flags ", say.reset_flags);
}
