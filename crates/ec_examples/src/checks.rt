// The checks before a command's row: framing, command, version, pending erase, body.
ghost use Rattle.std.specs.Prelude.{◌≡◌, [], ◌∷◌, ◌++◌, map, replicate, Some, None, Ok, Err};
ghost use Rattle.ec_model.specs.Commands.{line, known, Version, CmdVersions, FlashErase, Comms, RegionInfo, Resend};
ghost use Rattle.ec_model.specs.Packet.{request_packet};
ghost use Rattle.ec_model.specs.Bodies.{hello_ask, cmd_versions_ask0, cmd_versions_ask1, region_info_ask, reboot_ask};
ghost use Rattle.ec_model.specs.Handle.{asked, admitted_by};
ghost use Rattle.ec_model.specs.Erasing.{with_job};
ghost use Rattle.ec_examples.specs.Flashes.{e64};
ghost use Rattle.ec_examples.specs.Cores.{on};

/// The checks come in this order: each request here fails the one that it is named for and all behind it.
pub fn checks_in_their_order()
    ensures framing { asked (on e64) (0x03 ∷ 0x00 ∷ 0xFF ∷ 0xFF ∷ 0x07 ∷ 0x00 ∷ 0x00 ∷ 0x00 ∷ []) ≡ Err 7 }
    ensures command { asked (on e64) (request_packet 0xFFFF 7 []) ≡ Err 1 }
    ensures version { asked (with_job (Some (record { next = 8; left = 8 })) 9 (on e64)) (request_packet 0x13 1 []) ≡ Err 6 }
    ensures erase { asked (with_job (Some (record { next = 8; left = 8 })) 9 (on e64)) (request_packet 0x13 0 []) ≡ Err 16 }
    ensures body { asked (on e64) (request_packet 0x13 0 []) ≡ Err 3 }
    ensures passed { asked (on e64) (request_packet 0x13 0 (replicate 8 0)) ≡
        Ok (record { command = FlashErase; version = 0; body = replicate 8 0 }) }
{}

/// While an erase is pending a HELLO is told so, and two commands are answered all the same.
pub fn commands_while_an_erase_is_pending()
    ensures hello { asked (with_job (Some (record { next = 8; left = 8 })) 9 (on e64)) (request_packet 1 0 (hello_ask 5)) ≡ Err 16 }
    ensures comms { asked (with_job (Some (record { next = 8; left = 8 })) 9 (on e64)) (request_packet 0x09 0 []) ≡
        Ok (record { command = Comms; version = 0; body = [] }) }
    ensures resend { asked (with_job (Some (record { next = 8; left = 8 })) 9 (on e64)) (request_packet 0xDB 0 []) ≡
        Ok (record { command = Resend; version = 0; body = [] }) }
{}

/// A body's length is just its row's: HELLO takes 4 bytes.
pub fn bodies_of_another_length()
    ensures short { asked (on e64) (request_packet 1 0 (1 ∷ 2 ∷ 3 ∷ [])) ≡ Err 3 }
    ensures long { asked (on e64) (request_packet 1 0 (1 ∷ 2 ∷ 3 ∷ 4 ∷ 5 ∷ [])) ≡ Err 3 }
    ensures write { asked (on e64) (request_packet 0x12 1 (replicate 4 0 ++ 8 ∷ replicate 7 0)) ≡ Err 3 }
{}

/// A version that a command does not offer is refused before its body is looked at: FLASH_REGION_INFO has no version 0.
pub fn versions_that_are_offered()
    ensures refused { asked (on e64) (request_packet 0x16 0 (1 ∷ [])) ≡ Err 6 }
    ensures offered { asked (on e64) (request_packet 0x16 1 (region_info_ask 2)) ≡
        Ok (record { command = RegionInfo; version = 1; body = region_info_ask 2 }) }
    ensures later { asked (on e64) (request_packet 0x10 2 []) ≡ Err 6 }
{}

/// The commands that tell of the images, hash and reset have version 0 alone, and their bodies a length of their own.
pub fn commands_of_the_images()
    ensures known { map known (0x02 ∷ 0x1C ∷ 0x2A ∷ 0xD2 ∷ 0x03 ∷ 0xD3 ∷ []) ≡ Some 1 ∷ Some 1 ∷ Some 1 ∷ Some 1 ∷ None ∷ None ∷ [] }
    ensures version { asked (on e64) (request_packet 0x02 0 []) ≡ Ok (record { command = Version; version = 0; body = [] }) }
    ensures version_long { asked (on e64) (request_packet 0x02 0 (0 ∷ [])) ≡ Err 3 }
    ensures sysinfo_one { asked (on e64) (request_packet 0x1C 1 []) ≡ Err 6 }
    ensures sysinfo_long { asked (on e64) (request_packet 0x1C 0 (0 ∷ [])) ≡ Err 3 }
    ensures hash_short { asked (on e64) (request_packet 0x2A 0 (replicate 75 0)) ≡ Err 3 }
    ensures hash_long { asked (on e64) (request_packet 0x2A 0 (replicate 77 0)) ≡ Err 3 }
    ensures reboot_short { asked (on e64) (request_packet 0xD2 0 (4 ∷ [])) ≡ Err 3 }
    ensures reboot_long { asked (on e64) (request_packet 0xD2 0 (4 ∷ 0 ∷ 0 ∷ [])) ≡ Err 3 }
    ensures reboot_erasing { asked (with_job (Some (record { next = 8; left = 8 })) 9 (on e64)) (request_packet 0xD2 0 (reboot_ask 4 0)) ≡ Err 16 }
{}

/// The body of GET_CMD_VERSIONS has one byte in version 0 and two in version 1.
pub fn bodies_by_their_version()
    ensures one { asked (on e64) (request_packet 0x08 0 (cmd_versions_ask0 1)) ≡
        Ok (record { command = CmdVersions; version = 0; body = 1 ∷ [] }) }
    ensures two { asked (on e64) (request_packet 0x08 1 (cmd_versions_ask1 1)) ≡
        Ok (record { command = CmdVersions; version = 1; body = 1 ∷ 0 ∷ [] }) }
    ensures short { asked (on e64) (request_packet 0x08 1 (cmd_versions_ask0 1)) ≡ Err 3 }
    ensures long { asked (on e64) (request_packet 0x08 0 (cmd_versions_ask1 1)) ≡ Err 3 }
    ensures none { asked (on e64) (request_packet 0x0B 0 (0 ∷ [])) ≡ Err 3 }
{}
