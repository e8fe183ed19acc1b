// From which states a sync succeeds, where nothing disturbs it.
ghost use Rattle.std.specs.Prelude.{◌≡◌, ◌≤◌, List, ℕ, length, true};
ghost use Rattle.ec_types.specs.LittleEndian.{AreBytes};
ghost use Rattle.ec_types.specs.declared.bus.BusKind.{BusKind};
ghost use Rattle.ec_types.specs.declared.image.Fit.TheVariants.{Yes};
ghost use Rattle.ec_model.specs.declared.event.Entry.{Entry};
ghost use Rattle.ec_model.specs.HostCalls.{HostView};
ghost use Rattle.ec_model.specs.Image.{fit_of};
ghost use Rattle.ec_model.specs.Run.{IsRun};
ghost use Rattle.ec_model.specs.Syncable.{settled, Syncable};
ghost use Rattle.ec_model.specs.Table.{Table, Valid};
ghost use Rattle.command_laws.specs.Standing.{IsQuiet};
ghost use Rattle.sync_rules.specs.declared.ending.SyncEnd.{SyncEnd};
ghost use Rattle.sync_rules.specs.Syncing.{Syncs};
ghost use Rattle.sync_laws.specs.Synced.{IsSynced};

/// A sync that nothing disturbs, of a fitting image, from each state from which it has to succeed (`Syncable`: RW has
/// the image, and no pending erase has a block there; or the lock of the whole flash is not stored under an asserted
/// pin), is done, whatever bus, erase, hash and live state it finds. RW runs and has the digest of the padded image, no
/// jump is left, and where the pin is asserted and RO is to be locked, the whole flash is.
pub fn syncable_syncs_are_done()
    ensures { (bus : BusKind) (image : List ℕ) (view : HostView) (table : Table) (entries : List Entry) (end : SyncEnd)
        (last : Table) → Valid table → table.kind ≡ bus → Syncable table image →
        fit_of image (length (settled table).flash) ≡ Yes → AreBytes image → view.on ≡ true →
        12000000 ≤ view.spare → IsQuiet entries → IsRun table entries last → Syncs bus image view entries end →
        IsSynced bus image end last }
{}
