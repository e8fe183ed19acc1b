// The commands that only ask.
ghost use Rattle.std.specs.Prelude.{◌≡◌, [], ◌∷◌, ◌++◌, replicate};
ghost use Rattle.ec_model.specs.Commands.{Proto, Version, Chip, CmdVersions, Comms, Test, ProtoInfo, FlashInfo, FlashErase, RegionInfo, Sysinfo, Reboot, Resend};
ghost use Rattle.ec_model.specs.Bodies.{cmd_versions_ask0, cmd_versions_ask1, test_ask, region_info_ask, flash_erase_ask, version_say, reboot_ask};
ghost use Rattle.ec_examples.specs.Flashes.{e64, g64, with_image, with_ro};
ghost use Rattle.ec_examples.specs.Cores.{on};
ghost use Rattle.ec_examples.specs.Replies.{replies, replies_within};

/// Fixed answers: the protocol, its limits on a bus, the chip, and the flash.
pub fn fixed_answers()
    ensures protocol { replies_within 544 ((Proto, 0, []) ∷ (ProtoInfo, 0, []) ∷ []) (on e64) ≡
        (0, 0x02 ∷ 0x00 ∷ 0x00 ∷ 0x00 ∷ []) ∷ (0, 0x08 ∷ 0x00 ∷ 0x00 ∷ 0x00 ∷ 0x20 ∷ 0x02 ∷ 0x20 ∷ 0x02 ∷ 0x01 ∷ 0x00 ∷ 0x00 ∷ 0x00 ∷ []) ∷ [] }
    ensures limits { replies_within 256 ((ProtoInfo, 0, []) ∷ []) (on e64) ≡
        (0, 0x08 ∷ 0x00 ∷ 0x00 ∷ 0x00 ∷ 0x00 ∷ 0x01 ∷ 0x00 ∷ 0x01 ∷ 0x01 ∷ 0x00 ∷ 0x00 ∷ 0x00 ∷ []) ∷ [] }
    ensures chip { replies ((Chip, 0, []) ∷ []) (on e64) ≡ (
      0,
      (0x62 ∷ 0x65 ∷ 0x6E ∷ 0x63 ∷ 0x68 ∷ []) ++ replicate 27 0 ++ 0x65 ∷ 0x63 ∷ 0x62 ∷ 0x65 ∷ 0x6E ∷ 0x63 ∷ 0x68 ∷ [] ++ replicate 25 0
          ++ 0x31 ∷ [] ++ replicate 31 0,
    ) ∷ [] }
    ensures flash { replies ((FlashInfo, 0, []) ∷ (FlashInfo, 1, []) ∷ []) (on e64) ≡
        (0, 0 ∷ 0 ∷ 1 ∷ 0 ∷ 4 ∷ 0 ∷ 0 ∷ 0 ∷ 0 ∷ 0x10 ∷ 0 ∷ 0 ∷ 0 ∷ 0x10 ∷ 0 ∷ 0 ∷ []) ∷
        (0, 0 ∷ 0 ∷ 1 ∷ 0 ∷ 4 ∷ 0 ∷ 0 ∷ 0 ∷ 0 ∷ 0x10 ∷ 0 ∷ 0 ∷ 0 ∷ 0x10 ∷ 0 ∷ 0 ∷ 64 ∷ 0 ∷ 0 ∷ 0 ∷ 0 ∷ 0 ∷ 0 ∷ 0 ∷ []) ∷ [] }
{}

/// The versions of a command: FLASH_WRITE and GET_CMD_VERSIONS have 0 and 1, HELLO and REBOOT_EC have 0, FLASH_REGION_INFO has 1
/// alone, and 0xFFF is no command.
pub fn versions_of_commands()
    ensures { replies ((CmdVersions, 0, cmd_versions_ask0 0x12) ∷ (CmdVersions, 1, cmd_versions_ask1 0x12) ∷ (CmdVersions, 1, cmd_versions_ask1 0x01) ∷
        (CmdVersions, 1, cmd_versions_ask1 0x16) ∷ (CmdVersions, 0, cmd_versions_ask0 0x08) ∷ (CmdVersions, 1, cmd_versions_ask1 0xD2) ∷ (CmdVersions, 1, cmd_versions_ask1 0xFFF) ∷ [])
        (on e64) ≡
        (0, 3 ∷ 0 ∷ 0 ∷ 0 ∷ []) ∷ (0, 3 ∷ 0 ∷ 0 ∷ 0 ∷ []) ∷ (0, 1 ∷ 0 ∷ 0 ∷ 0 ∷ []) ∷ (0, 2 ∷ 0 ∷ 0 ∷ 0 ∷ []) ∷ (0, 3 ∷ 0 ∷ 0 ∷ 0 ∷ []) ∷
        (0, 1 ∷ 0 ∷ 0 ∷ 0 ∷ []) ∷ (3, []) ∷ [] }
{}

/// The regions: RO without the stored protection, RW twice, and all that write protection guards.
pub fn regions()
    ensures { replies ((RegionInfo, 1, region_info_ask 0) ∷ (RegionInfo, 1, region_info_ask 1) ∷ (RegionInfo, 1, region_info_ask 2) ∷
        (RegionInfo, 1, region_info_ask 3) ∷ (RegionInfo, 1, region_info_ask 4) ∷ []) (on e64) ≡
        (0, 0 ∷ 0 ∷ 0 ∷ 0 ∷ 0 ∷ 0x70 ∷ 0 ∷ 0 ∷ []) ∷ (0, 0 ∷ 0x80 ∷ 0 ∷ 0 ∷ 0 ∷ 0x80 ∷ 0 ∷ 0 ∷ []) ∷
        (0, 0 ∷ 0 ∷ 0 ∷ 0 ∷ 0 ∷ 0x80 ∷ 0 ∷ 0 ∷ []) ∷ (0, 0 ∷ 0x80 ∷ 0 ∷ 0 ∷ 0 ∷ 0x80 ∷ 0 ∷ 0 ∷ []) ∷ (3, []) ∷ [] }
{}

/// TEST_PROTOCOL gives back what it is told: at most its 32 bytes, or a status up to 20 with no data.
pub fn tests_of_the_protocol()
    ensures { replies ((Test, 0, test_ask 0 4 (10 ∷ 11 ∷ 12 ∷ 13 ∷ replicate 28 0)) ∷ (Test, 0, test_ask 0 33 (replicate 32 7)) ∷
        (Test, 0, test_ask 20 4 (replicate 32 7)) ∷ (Test, 0, test_ask 21 4 (replicate 32 7)) ∷ []) (on e64) ≡
        (0, 10 ∷ 11 ∷ 12 ∷ 13 ∷ []) ∷ (0, replicate 32 7) ∷ (20, []) ∷ (3, []) ∷ [] }
{}

/// A version is told up to its first byte that is not printable; an erased one is empty. Behind a jump RW is told to run.
pub fn versions_of_the_images()
    ensures blank { replies ((Version, 0, []) ∷ []) (on e64) ≡ (0, version_say (replicate 32 0) (replicate 32 0) (replicate 32 0) 1) ∷ [] }
    ensures ro { replies ((Version, 0, []) ∷ []) (on (with_ro 0x100 e64)) ≡
        (0, version_say (0x73 ∷ 0x6E ∷ 0x6F ∷ 0x77 ∷ 0x5F ∷ 0x76 ∷ 0x31 ∷ replicate 25 0) (replicate 32 0) (replicate 32 0) 1) ∷ [] }
    ensures jumped { replies ((Reboot, 0, reboot_ask 2 0) ∷ (Version, 0, []) ∷ []) (on (with_image e64)) ≡
        (0, []) ∷ (0, version_say (replicate 32 0) (0x76 ∷ 0x32 ∷ replicate 30 0) (replicate 32 0) 2) ∷ [] }
    ensures rw { replies ((Version, 0, []) ∷ []) (on (with_image e64)) ≡
        (0, version_say (replicate 32 0) (0x76 ∷ 0x32 ∷ replicate 30 0) (replicate 32 0) 1) ∷ [] }
{}

/// The flags of the reset, the image that runs, and whether it is locked, may jump, and was jumped to: in RO behind a power-on,
/// in RO that is locked, and in RW.
pub fn what_the_system_is()
    ensures ro { replies ((Sysinfo, 0, []) ∷ []) (on e64) ≡ (0, 0x08 ∷ 0 ∷ 0 ∷ 0 ∷ 1 ∷ 0 ∷ 0 ∷ 0 ∷ 4 ∷ 0 ∷ 0 ∷ 0 ∷ []) ∷ [] }
    ensures locked { replies ((Sysinfo, 0, []) ∷ []) (on g64) ≡ (0, 0x08 ∷ 0 ∷ 0 ∷ 0 ∷ 1 ∷ 0 ∷ 0 ∷ 0 ∷ 5 ∷ 0 ∷ 0 ∷ 0 ∷ []) ∷ [] }
    ensures rw { replies ((Reboot, 0, reboot_ask 2 0) ∷ (Sysinfo, 0, []) ∷ []) (on (with_image g64)) ≡
        (0, []) ∷ (0, 0x08 ∷ 4 ∷ 0 ∷ 0 ∷ 2 ∷ 0 ∷ 0 ∷ 0 ∷ 0x0D ∷ 0 ∷ 0 ∷ 0 ∷ []) ∷ [] }
{}

/// An erase that is asked for is shown as pending, and its status is not known yet.
pub fn pending_erase_is_shown()
    ensures { replies ((Comms, 0, []) ∷ (FlashErase, 0, flash_erase_ask 0x8000 0x1000) ∷ (Comms, 0, []) ∷ (Resend, 0, []) ∷ []) (on e64) ≡
        (0, 0 ∷ 0 ∷ 0 ∷ 0 ∷ []) ∷ (8, []) ∷ (0, 1 ∷ 0 ∷ 0 ∷ 0 ∷ []) ∷ (9, []) ∷ [] }
{}
