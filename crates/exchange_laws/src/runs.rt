// What holds on every bus.
ghost use Rattle.std.specs.Prelude.{◌≡◌, ◌≤◌, ◌<◌, ◌^◌, List, ℕ, length, Ok, IsTrue, IsFalse};
ghost use Rattle.std.specs.List.{list_all};
ghost use Rattle.ec_types.specs.Tables.{packet_limit};
ghost use Rattle.ec_types.specs.declared.bus.BusKind.{BusKind};
ghost use Rattle.ec_model.specs.declared.event.Entry.{Entry};
ghost use Rattle.ec_model.specs.Packet.{request_packet, response_packet};
ghost use Rattle.ec_model.specs.Table.{Table, Awake, Core, On, Valid, core_of};
ghost use Rattle.ec_model.specs.Answer.{Answered};
ghost use Rattle.ec_model.specs.Handle.{handled};
ghost use Rattle.ec_model.specs.Heard.{Heard};
ghost use Rattle.ec_model.specs.Run.{IsRun};
ghost use Rattle.ec_model.specs.Send.{Send, Quiet};
ghost use Rattle.ec_model.specs.Syncable.{settled};
ghost use Rattle.ec_model.specs.Upset.{IsUndisturbed};
ghost use Rattle.ec_model.specs.HostCalls.{calls_of};
ghost use Rattle.ec_wire.specs.Calls.{is_wire_step};
ghost use Rattle.exchange_laws.specs.AnyBus.{IsExchangeOf};
ghost use Rattle.exchange_laws.specs.Calm.{CallsLead};
ghost use Rattle.exchange_laws.specs.Served.{is_cold, IsPlain, IsAnswer};
ghost use Rattle.exchange_laws.specs.Resting.{Rests};
ghost use Rattle.exchange_laws.specs.Transaction.{is_resting};

/// Where nothing disturbs a run, it is determined by the host's calls.
pub fn calm_runs()
    ensures { (old : Table) (entries : List Entry) (new : Table) → IsUndisturbed entries → IsRun old entries new →
        CallsLead old (calls_of entries) new }
{}

/// The spelling of a request that is no COLD is a plain packet, and a plain packet is answered.
pub fn plain_requests()
    ensures spelled { (command version : ℕ) (body : List ℕ) → command < 2 ^ 16 → length body < 2 ^ 16 →
        IsFalse (is_cold (Ok (record { command = command; version = version; body = body }))) →
        IsPlain (request_packet command version body) }
    ensures answered { (packet : List ℕ) (core : Core) (limit : ℕ) → IsPlain packet →
        IsAnswer (handled core limit packet) }
{}

/// Where nothing disturbs a send to a controller that is on, each of its entries is known: on LPC the request that
/// waits is served first; then the packet is handled, and its response is heard.
pub fn exchanges()
    ensures { (table : Table) (awake : Awake) (packet : List ℕ) (added : List Entry) (heard : Heard) (new : Table)
        (after : Core) (result : ℕ) (body : List ℕ) →
        Valid table → (settled table).power ≡ On awake → IsPlain packet → length packet ≤ packet_limit table.kind →
        Send table.kind added packet heard → IsRun table added new → IsUndisturbed added →
        IsTrue (list_all is_wire_step added) →
        handled (core_of (settled table) awake) (packet_limit table.kind) packet ≡ Answered after result body →
        IsExchangeOf table packet (response_packet result body) after added heard new }
{}

/// A bus that is brought to rest, where nothing disturbs that, is at rest, from whatever state; and no request waits on
/// it.
pub fn quiets_rest()
    ensures rest { (kind : BusKind) (old : Table) (entries : List Entry) (new : Table) → Valid old → old.kind ≡ kind →
        Quiet kind entries → IsRun old entries new → IsUndisturbed entries → IsTrue (is_resting new.power) }
    ensures none_waits { (table : Table) → IsTrue (is_resting table.power) → Rests table }
{}
