// What comes of a restart that the host asks for.
ghost use Rattle.std.specs.Prelude.{◌≡◌, ◌+◌, List, IsTrue};
ghost use Rattle.std.specs.List.{list_all, list_any};
ghost use Rattle.ec_model.specs.declared.event.Entry.{Entry};
ghost use Rattle.ec_model.specs.Asks.{Setting};
ghost use Rattle.ec_model.specs.HostCalls.{HostView};
ghost use Rattle.ec_model.specs.Run.{IsRun};
ghost use Rattle.ec_model.specs.Table.{Table, Core, Valid, is_on};
ghost use Rattle.ec_model.specs.Upset.{is_upset};
ghost use Rattle.ec_wire.specs.Calls.{is_wire_step};
ghost use Rattle.exchange_laws.specs.Resting.{is_waiting};
ghost use Rattle.host_framing.specs.Room.{waiting_room};
ghost use Rattle.command_laws.specs.Restarting.{RestartEnd, Upset, Restarts, IsRestarted, restart_room};
ghost use Rattle.command_laws.specs.Standing.{IsQuiet, IsOpen, HasRoom};

/// A restart that nothing disturbs, of a controller that is on: the request that waits is served, the erase that is
/// pending is carried out, and the COLD is sent, which leaves the controller booted; and it takes just so much room.
pub fn colds_restart()
    ensures { (setting : Setting) (view : HostView) (core : Core) (table : Table) (entries : List Entry)
        (end : RestartEnd) (last : Table) → IsOpen setting.bus core table →
        HasRoom setting view (restart_room setting.bus core.live.erase + waiting_room setting.bus (is_waiting table.power)) →
        IsQuiet entries → IsRun table entries last → Restarts setting view entries end →
        IsRestarted setting.bus core
        (restart_room setting.bus core.live.erase + waiting_room setting.bus (is_waiting table.power)) entries end
        last }
{}

/// A restart that is said to be upset was: an upset is among its entries.
pub fn upset_colds_are_upset()
    ensures { (setting : Setting) (view : HostView) (table : Table) (entries : List Entry) (last : Table) →
        Valid table → table.kind ≡ setting.bus → is_on table.power ≡ view.on →
        IsTrue (list_all is_wire_step entries) → IsRun table entries last → Restarts setting view entries Upset →
        IsTrue (list_any is_upset entries) }
{}
