// Lines that ended for want of power or of room.
ghost use Rattle.std.specs.Prelude.{◌≡◌, ◌≤◌, List, IsTrue, false};
ghost use Rattle.std.specs.List.{list_any};
ghost use Rattle.ec_types.specs.Tables.{packet_limit};
ghost use Rattle.ec_types.specs.declared.bus.BusKind.{BusKind};
ghost use Rattle.ec_model.specs.declared.event.Entry.{Entry};
ghost use Rattle.ec_model.specs.HostCalls.{HostView};
ghost use Rattle.ec_model.specs.Table.{Valid};
ghost use Rattle.ec_model.specs.Tries.{SaidNoPower, SaidShort};
ghost use Rattle.ec_model.specs.Upset.{is_upset};
ghost use Rattle.ectool_lines.specs.declared.tool.Tool.{Tool};
ghost use Rattle.ectool_lines.specs.Tools.{IsInRange};
ghost use Rattle.ectool_lines.specs.Requests.{Asked, commands_of};
ghost use Rattle.ectool_lines.specs.Asking.{AsksEach, Hears};
ghost use Rattle.ectool_lines.specs.Following.{Stand, Follows};
ghost use Rattle.ectool_lines.specs.Texts.{Stopped};

/// A line that prints that there is no power ends with the controller off, whatever its commands are.
pub fn lines_without_power_are_off()
    ensures { (bus : BusKind) (view after : HostView) (commands : List Asked) (entries : List Entry) →
        AsksEach (Hears bus) view commands entries (Stopped SaidNoPower) after → after.on ≡ false }
{}

/// A line that had the room that is made for it, 200,000 entries, and one of whose commands found too little, was upset:
/// an upset is among its entries, whatever it sends and in whatever valid state the controller was.
pub fn short_lines_are_upset()
    ensures { (tool : Tool) (old new : Stand) (entries : List Entry) → IsInRange tool → Valid old.table →
        200000 ≤ old.spare →
        AsksEach Follows old (commands_of (packet_limit old.table.kind) tool) entries (Stopped SaidShort) new →
        IsTrue (list_any is_upset entries) }
{}
