// What lasts until the next reset, beside the hash, and what of it is kept over a jump.
ghost use Rattle.std.specs.Prelude.{◌≡◌};
ghost use Rattle.ec_boot.specs.Shared.{live_of, data_of, finished, lasting_of, kept_of, layout_by};

use ec_model::{EraseJob, HashView, Live};
use ec_types::{ImageCopy, KeptHash, reset, status};
use flash_protect::Protect;
use jump_data::{JumpData, TagLayout};

/// What lasts until the next reset, beside the hash.
#[derive(Clone, Copy)]
pub struct Lasting {
    pub copy: ImageCopy,
    pub flags: u32,
    pub jumped: bool,
    pub protect: Protect,
    pub jump_off: bool,
    pub erase: Option<EraseJob>,
    pub saved: u16,
}

impl Lasting {
    /// What is shown of it, with the hash.
    pub fn live(&self, hash: HashView) -> Live
        ensures { result ≡ live_of self.now hash }
    {
        Live {
            copy: self.copy,
            flags: self.flags,
            jumped: self.jumped,
            ro_now: self.protect.ro_now,
            all_now: self.protect.all_now,
            pstate_bad: self.protect.bad,
            jump_off: self.jump_off,
            hash,
            erase: self.erase,
            saved: self.saved,
        }
    }

    /// The jump data of it, in the layout that the image writes: none has no tags, and says the flags alone.
    pub fn jump_data(&self, layout: Option<TagLayout>, hash: HashView) -> JumpData
        ensures { result ≡ data_of layout self.now hash }
    {
        match layout {
            None => JumpData::Old { flags: self.flags },
            Some(layout) => JumpData::Tagged {
                layout,
                flags: self.flags,
                protect: [
                    u8::from(self.protect.ro_now),
                    u8::from(self.protect.all_now),
                    u8::from(self.protect.bad),
                    u8::from(self.jump_off),
                ],
                hash: finished(hash),
                saved: self.saved,
            },
        }
    }

    /// What lasts in an image that was jumped to, by the jump data. `ro` and `all` are the locks, which tell the
    /// protection where jump data does not.
    pub fn behind_jump(target: ImageCopy, jump: &JumpData, ro: bool, all: bool) -> Lasting
        ensures { result ≡ lasting_of target ro all jump.now }
    {
        match *jump {
            JumpData::Old { flags } => Lasting {
                copy: target,
                flags: flags | reset::SYSTEM_JUMP,
                jumped: true,
                protect: Protect {
                    ro_now: ro,
                    all_now: all,
                    bad: false,
                },
                jump_off: false,
                erase: None,
                saved: status::UNAVAILABLE,
            },
            JumpData::Tagged {
                layout: _,
                flags,
                protect,
                hash: _,
                saved,
            } => Lasting {
                copy: target,
                flags: flags | reset::SYSTEM_JUMP,
                jumped: true,
                protect: Protect {
                    ro_now: protect[0] == 1,
                    all_now: protect[1] == 1,
                    bad: protect[2] == 1,
                },
                jump_off: protect[3] == 1,
                erase: None,
                saved,
            },
        }
    }
}

// A finished hash, which is kept over a jump.
fn finished(hash: HashView) -> Option<KeptHash>
    ensures { result ≡ finished hash }
{
    match hash {
        HashView::Done { at, size, digest } => Some(KeptHash { at, size, digest }),
        HashView::Idle | HashView::Busy { .. } => None,
    }
}

/// The hash that jump data keeps.
pub fn kept(jump: &JumpData) -> Option<KeptHash>
    ensures { result ≡ kept_of jump.now }
{
    match *jump {
        JumpData::Old { flags: _ } => None,
        JumpData::Tagged {
            layout: _,
            flags: _,
            protect: _,
            hash,
            saved: _,
        } => hash,
    }
}

/// The layout of the jump data that RO writes, by a byte of its image: 1 says that there are no tags, 2 the older layout,
/// and any other byte the newer one.
pub fn layout(byte: u8) -> Option<TagLayout>
    ensures { result ≡ layout_by byte }
{
    match byte {
        1 => None,
        2 => Some(TagLayout::V2),
        _ => Some(TagLayout::V3),
    }
}
