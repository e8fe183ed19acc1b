// What comes of a sync that finds nothing to write, where nothing disturbs it.
ghost use Rattle.std.specs.Prelude.{◌≡◌, ◌≤◌, List, ℕ, true};
ghost use Rattle.ec_types.specs.declared.bus.BusKind.{BusKind};
ghost use Rattle.ec_model.specs.declared.event.Entry.{Entry};
ghost use Rattle.ec_model.specs.HostCalls.{HostView};
ghost use Rattle.ec_model.specs.Run.{IsRun};
ghost use Rattle.ec_model.specs.Table.{Table, Core};
ghost use Rattle.command_laws.specs.Restarting.{erased};
ghost use Rattle.command_laws.specs.Standing.{IsQuiet, IsOpen};
ghost use Rattle.sync_rules.specs.declared.ending.SyncEnd.{SyncEnd};
ghost use Rattle.sync_rules.specs.Syncing.{Syncs};
ghost use Rattle.sync_laws.specs.Kept.{HoldsFitting, IsKept};

/// A sync that nothing disturbs, of a controller that is on, whatever its bus was doing, whichever image runs and
/// whatever is locked: where RW has the image, which fits, once the pending erase is over, if there is one, it is done
/// and wrote nothing. RW runs, no jump is left, and where the pin is asserted and RO is to be locked, the whole flash
/// is.
pub fn kept_syncs_are_done()
    ensures { (bus : BusKind) (image : List ℕ) (view : HostView) (core : Core) (table : Table) (entries : List Entry)
        (end : SyncEnd) (last : Table) → IsOpen bus core table → view.on ≡ true → 12000000 ≤ view.spare →
        IsQuiet entries → IsRun table entries last → HoldsFitting image (erased core) → Syncs bus image view entries end →
        IsKept bus core entries end last }
{}
