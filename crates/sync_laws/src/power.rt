// What a sync that is said to have no power, or no memory, was.
ghost use Rattle.std.specs.Prelude.{◌≡◌, List, ℕ, false};
ghost use Rattle.ec_types.specs.declared.bus.BusKind.{BusKind};
ghost use Rattle.ec_model.specs.declared.event.Entry.{Entry};
ghost use Rattle.ec_model.specs.HostCalls.{HostView, on_after};
ghost use Rattle.sync_rules.specs.declared.ending.SyncEnd.TheVariants.{NoPower, NoMemory};
ghost use Rattle.sync_rules.specs.Syncing.{Syncs};

/// A sync that ends without power leaves the controller off.
pub fn dark_syncs_leave_it_off()
    ensures { (bus : BusKind) (image : List ℕ) (view : HostView) (entries : List Entry) →
        Syncs bus image view entries NoPower → on_after entries view.on ≡ false }
{}

/// The rounds of a sync never end for want of memory.
pub fn syncs_take_no_memory()
    ensures { (bus : BusKind) (image : List ℕ) (view : HostView) (entries : List Entry) →
        ¬ (Syncs bus image view entries NoMemory) }
{}
