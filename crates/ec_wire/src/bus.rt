// The controller's side of a bus.
ghost use Rattle.std.specs.Prelude.{◌≡◌, ◌≤◌, ℕ, Option, Some, IsSome, IsNone, IsTrue, length};
ghost use Rattle.ec_types.specs.Tables.{packet_limit};
ghost use Rattle.ec_types.specs.declared.bus.BusKind.{BusKind};
ghost use Rattle.ec_model.specs.Packet.{is_response};
ghost use Rattle.ec_model.specs.Bus.{BusState, kind_of, fresh_bus, bus_step, due_now, replied};
ghost use Rattle.ec_wire.specs.Dues.{due_of, waiting_request};

use ec_model::Access;
use ec_packet::Packet;
use ec_types::BusKind;

/// When a request is to be served.
#[derive(Clone, Copy, Debug, PartialEq, Eq)]
pub enum Due {
    No,
    AtTick,
    Now,
}

/// The controller's machine on a bus.
pub trait Bus {
    /// The state that the machine stands for.
    ghost state: { Self → BusState };

    /// Which bus it is.
    ghost bus: { BusKind };

    /// The state behind a reset.
    fn fresh() -> Self
        ensures { state result ≡ fresh_bus bus };

    /// Which bus it is.
    fn kind(&self) -> BusKind
        ensures { result ≡ bus };

    /// One access of the host. Gives the byte that it is answered with.
    fn access(&mut self, a: Access) -> u8
        requires { IsNone (due_now (state self.old)) }
        ensures state { state self.new ≡ (bus_step (state self.old) a).state }
        ensures answer { result ≡ (bus_step (state self.old) a).answer };

    /// Whether a request waits to be served, and for what.
    fn due(&self) -> Due
        ensures { result ≡ due_of (state self.now) };

    /// The request that waits.
    fn waiting(&self) -> &[u8]
        requires { IsSome (waiting_request (state self.now)) }
        ensures waiting { waiting_request (state self.now) ≡ Some result.now }
        ensures short { length result.now ≤ 544 };

    /// Takes the response to the request that waits.
    fn reply(&mut self, packet: &Packet)
        requires due { IsSome (waiting_request (state self.old)) }
        requires response { IsTrue (is_response packet.now) }
        requires short { length packet.now ≤ packet_limit bus }
        ensures { state self.new ≡ replied packet.now (state self.old) };

    /// The state is one of this bus.
    ghost own: { (machine : Self) → kind_of (state machine) ≡ bus };
}
