// Laws of what the calls of a wire add.
ghost use Rattle.std.specs.Prelude.{◌≡◌, List, ◌++◌, map};
ghost use Rattle.ec_model.specs.declared.event.Entry.{Entry};
ghost use Rattle.ec_model.specs.HostCalls.{calls_of};
ghost use Rattle.ec_model.specs.Upset.{IsUndisturbed};
ghost use Rattle.ec_wire.specs.Calls.{WireView, Grows};
ghost use Rattle.ec_wire.specs.Quiet.{StaysCalm, quiet_entry};

/// Calls behind others are calls.
pub fn calls_compose()
    ensures { (added more : List Entry) (old middle new : WireView) → Grows added old middle → Grows more middle new →
        Grows (added ++ more) old new }
{}

/// Where nothing of the world is armed, and the flash counts neither a fault nor a cut, nothing disturbs the calls.
/// The host's calls determine the entries where nothing disturbs them.
pub fn quiet_calls()
    ensures undisturbed { (added : List Entry) (old new : WireView) → Grows added old new → StaysCalm old new →
        IsUndisturbed added }
    ensures determined { (added : List Entry) (old new : WireView) → Grows added old new → IsUndisturbed added →
        added ≡ map quiet_entry (calls_of added) }
{}
