// What comes of a sync of an RW that may have to be written, where nothing disturbs it.
ghost use Rattle.std.specs.Prelude.{◌≡◌, ◌≤◌, List, ℕ, true};
ghost use Rattle.ec_types.specs.declared.bus.BusKind.{BusKind};
ghost use Rattle.ec_model.specs.declared.event.Entry.{Entry};
ghost use Rattle.ec_model.specs.HostCalls.{HostView};
ghost use Rattle.ec_model.specs.Run.{IsRun};
ghost use Rattle.ec_model.specs.Table.{Table, Core};
ghost use Rattle.command_laws.specs.Restarting.{erased};
ghost use Rattle.command_laws.specs.Standing.{IsQuiet, IsOpen};
ghost use Rattle.sync_rules.specs.declared.ending.SyncEnd.{SyncEnd};
ghost use Rattle.sync_rules.specs.Syncing.{Syncs};
ghost use Rattle.sync_laws.specs.Written.{IsInstallable, IsWritten};

/// A sync that nothing disturbs, of a controller that is on, whatever its bus was doing, whichever image runs and
/// whatever is locked: where the image fits and a restart would not lock the whole flash, it is done. RW runs and has
/// the digest of the padded image; where it was written it is the padded image, and all before it is as it was. It is
/// written only where it has another digest, or no vector of its own. No jump is left, and where the pin is asserted
/// and RO is to be locked, the whole flash is.
pub fn undisturbed_syncs_are_done()
    ensures { (bus : BusKind) (image : List ℕ) (view : HostView) (core : Core) (table : Table) (entries : List Entry)
        (end : SyncEnd) (last : Table) → IsOpen bus core table → view.on ≡ true → 12000000 ≤ view.spare →
        IsQuiet entries → IsRun table entries last → IsInstallable image (erased core) →
        Syncs bus image view entries end → IsWritten bus image core entries end last }
{}
