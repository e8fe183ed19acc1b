// What comes of polls and of commands that nothing disturbs.
ghost use Rattle.std.specs.Prelude.{◌≡◌, ◌+◌, ℕ, List, IsTrue};
ghost use Rattle.std.specs.List.{list_all};
ghost use Rattle.ec_model.specs.declared.event.Entry.{Entry};
ghost use Rattle.ec_model.specs.Asks.{Setting};
ghost use Rattle.ec_model.specs.HostCalls.{HostView};
ghost use Rattle.ec_model.specs.Packet.{RequestView};
ghost use Rattle.ec_model.specs.Polls.{PollEnd, Polls, poll_turns};
ghost use Rattle.ec_model.specs.Run.{IsRun};
ghost use Rattle.ec_model.specs.Table.{Table, Core, Valid, is_on};
ghost use Rattle.ec_model.specs.Tries.{Said, SaidUpset, Tries};
ghost use Rattle.ec_wire.specs.Calls.{is_wire_step};
ghost use Rattle.exchange_laws.specs.Resting.{is_waiting};
ghost use Rattle.host_framing.specs.Room.{waiting_room};
ghost use Rattle.command_laws.specs.Commands.{IsProper, IsPolled, IsCarried, EachUpset};
ghost use Rattle.command_laws.specs.Idle.{poll_waits};
ghost use Rattle.command_laws.specs.Room.{poll_room, command_room};
ghost use Rattle.command_laws.specs.Standing.{IsQuiet, IsOpen, IsAt, HasRoom};

/// A poll that nothing disturbs, of a controller on which no request waits, ends with no erase pending: it waits once
/// for each block of the erase, and at least once.
pub fn polls_end()
    ensures { (setting : Setting) (view : HostView) (core : Core) (table : Table) (entries : List Entry)
        (end : PollEnd) (last : Table) → IsAt setting.bus core table →
        HasRoom setting view (poll_room setting.bus core.live.erase) → IsQuiet entries → IsRun table entries last →
        Polls poll_turns setting view entries end →
        IsPolled setting.bus core (poll_waits core.live.erase) entries end last }
{}

/// A command that nothing disturbs, of a controller that is on: the request that waits is served; what the command then
/// comes to is said, and left behind; and it takes just so much room.
pub fn commands_are_carried()
    ensures { (setting : Setting) (request : RequestView) (want : ℕ) (view : HostView) (core : Core) (table : Table)
        (entries : List Entry) (said : Said) (last : Table) → IsOpen setting.bus core table →
        IsProper setting.bus request want →
        HasRoom setting view (command_room setting.bus request core + waiting_room setting.bus (is_waiting table.power)) →
        IsQuiet entries → IsRun table entries last → Tries setting request want view entries said →
        IsCarried setting.bus request core
        (command_room setting.bus request core + waiting_room setting.bus (is_waiting table.power)) entries said
        last }
{}

/// A command that is said to be upset was upset in each of its three tries: each has an upset among its entries.
pub fn upset_commands_are_upset()
    ensures { (setting : Setting) (request : RequestView) (want : ℕ) (view : HostView) (table : Table)
        (entries : List Entry) (last : Table) → Valid table → table.kind ≡ setting.bus → is_on table.power ≡ view.on →
        IsProper setting.bus request want → IsTrue (list_all is_wire_step entries) → IsRun table entries last →
        Tries setting request want view entries SaidUpset → EachUpset entries }
{}
