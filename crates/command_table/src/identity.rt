// The rows of the commands that tell the images' versions and which image runs.
ghost use Rattle.std.specs.Prelude.{◌≡◌, ◌≤◌, ◌+◌, [], false, true, length, bit_or, IfOk, IfSome, ℕ, List};
ghost use Rattle.flash_dev.specs.Told.{Changes};
ghost use Rattle.flash_dev.specs.declared.hurt.Hurt.TheVariants.{Whole};
ghost use Rattle.flash_dev.specs.Costs.{Costs};
ghost use Rattle.ec_types.specs.LittleEndian.{bit_if};
ghost use Rattle.ec_model.specs.InfoRows.{version_text, raw_version, copy_number, version_row, sysinfo_row};
ghost use Rattle.ec_boot.specs.States.{told_core};
ghost use Rattle.ec_boot.specs.Jumping.{HasLooked, look_hurt};
ghost use Rattle.command_table.specs.Leaves.{Leaves, KeepsDevice};
ghost use Rattle.command_table.specs.Versions.{TellsVersions};

use crate::Reply;
use ec_boot::Running;
use ec_model::Hurt;
use ec_params::{IMAGE_RO, IMAGE_RW, SysinfoSay, VersionSay};
use ec_types::ImageCopy;
use flash_dev::{Failed, Region};
use image_head::version_text;

// How many bytes a version has, and where it stands in an image.
const VERSION_LENGTH: usize = 32;

const VERSION_PLACE: u32 = 8;

// The number of an image.
fn number_of(copy: ImageCopy) -> u32
    ensures { result ≡ copy_number copy }
{
    match copy {
        ImageCopy::Ro => IMAGE_RO,
        ImageCopy::Rw => IMAGE_RW,
    }
}

// The version of an image, as its head tells it.
fn version_of<R: Running>(state: &mut R, copy: ImageCopy) -> Result<[u8; VERSION_LENGTH], Failed>
    ensures text { IfOk result (λ text. IfSome (R.run state.old).device.held (λ flash. text ≡ version_text (raw_version copy flash))) }
    ensures looked { HasLooked (look_hurt result) 32 (R.run state.old).device (R.run state.new).device }
    ensures rest { R.run state.new ≡ record (R.run state.old) { device = (R.run state.new).device } }
{
    let region = match copy {
        ImageCopy::Ro => Region::Ro,
        ImageCopy::Rw => Region::Active,
    };
    let (start, _size) = state.geometry().range(region);
    let mut raw = [0; VERSION_LENGTH];
    state.read(start + VERSION_PLACE, &mut raw)?;
    Ok(version_text(&raw))
}

// The versions of both images, and which of them runs.
fn versions<R: Running>(state: &mut R) -> Result<VersionSay, Failed>
    ensures told { IfOk result (λ say. IfSome (R.run state.old).device.held (TellsVersions say (R.run state.old).live.copy)) }
    ensures looked { HasLooked (look_hurt result) 64 (R.run state.old).device (R.run state.new).device }
    ensures rest { R.run state.new ≡ record (R.run state.old) { device = (R.run state.new).device } }
{
    let ro = version_of(state, ImageCopy::Ro)?;
    let rw = version_of(state, ImageCopy::Rw)?;
    Ok(VersionSay {
        ro,
        rw,
        reserved: [0; VERSION_LENGTH],
        current: number_of(state.live().copy),
    })
}

/// GET_VERSION.
pub fn version<R: Running>(state: &mut R, reply: &mut Reply)
    ensures leaves { Changes (λ before after. Leaves reply.new.hurt (version_row before) true []
        (R.run state.old).device (R.run state.new).device before after reply.new.status reply.new.body)
        (told_core (R.run state.old)) (told_core (R.run state.new)) }
    ensures pin { (R.run state.new).pin ≡ (R.run state.old).pin }
    ensures spent { Costs reply.new.hurt 64 (R.run state.old).device (R.run state.new).device }
    ensures wear { (R.run state.new).device.wear ≡ (R.run state.old).device.wear }
    ensures short { length reply.new.body ≤ 100 }
{
    match versions(state) {
        Ok(say) => {
            reply.succeed();
            say.write(&mut reply.body);
        }
        Err(Failed) => reply.end(Hurt::Failed),
    }
}

// A flag where it is so.
fn flag(flag: u32, so: bool) -> u32
    ensures value { result ≡ bit_if flag so }
    ensures small { result ≤ flag }
{
    if so { flag } else { 0 }
}

/// SYSINFO.
pub fn sysinfo<R: Running>(state: &R, reply: &mut Reply)
    ensures leaves { Changes (λ before after. Leaves reply.new.hurt (sysinfo_row before) false []
        (R.run state.now).device (R.run state.now).device before after reply.new.status reply.new.body)
        (told_core (R.run state.now)) (told_core (R.run state.now)) }
    ensures hurt { reply.new.hurt ≡ Whole }
    ensures short { length reply.new.body ≤ 12 }
{
    let live = state.live();
    let say = SysinfoSay {
        reset_flags: live.flags,
        current: number_of(live.copy),
        flags: flag(SysinfoSay::LOCKED, live.ro_now && state.pin())
            + flag(SysinfoSay::JUMP_ENABLED, !live.jump_off)
            + flag(SysinfoSay::JUMPED, live.jumped),
    };
    reply.succeed();
    say.write(&mut reply.body);
}
