// What holds on LPC, from a valid table.
ghost use Rattle.std.specs.Prelude.{◌≡◌, ◌≤◌, List, ℕ, length, IsTrue};
ghost use Rattle.std.specs.List.{list_all};
ghost use Rattle.ec_types.specs.declared.bus.BusKind.TheVariants.{Lpc};
ghost use Rattle.ec_model.specs.declared.event.Entry.{Entry};
ghost use Rattle.ec_model.specs.Packet.{response_packet};
ghost use Rattle.ec_model.specs.Bus.{is_at_rest};
ghost use Rattle.ec_model.specs.HostCalls.{HostCall};
ghost use Rattle.ec_model.specs.Table.{Table, Awake, Core, Off, On, Valid, core_of};
ghost use Rattle.ec_model.specs.Answer.{Answered};
ghost use Rattle.ec_model.specs.Handle.{handled};
ghost use Rattle.ec_model.specs.Run.{IsRun};
ghost use Rattle.ec_model.specs.Heard.{Heard, Silent};
ghost use Rattle.ec_model.specs.Send.{Send, SendsBy, QuietBy};
ghost use Rattle.ec_model.specs.Syncable.{settled};
ghost use Rattle.ec_model.specs.Upset.{IsUndisturbed};
ghost use Rattle.ec_wire.specs.Calls.{is_wire_step};
ghost use Rattle.exchange_laws.specs.Calm.{CallsLead};
ghost use Rattle.exchange_laws.specs.Exchange.{first_statuses, Exchanges, IsExchange};
ghost use Rattle.exchange_laws.specs.Resting.{Rests};
ghost use Rattle.exchange_laws.specs.Served.{IsPlain, ServesPacket, Settles};
ghost use Rattle.exchange_laws.specs.Transaction.{IsTransacted, MakesTransaction, lpc_transaction};

/// An undisturbed send to a controller that is on is served, once the request that waits is. One to a controller that
/// is off hears nothing.
pub fn lpc_sends()
    ensures on { (table : Table) (awake : Awake) (packet : List ℕ) (calls : List HostCall) (heard : Heard)
        (new : Table) → Valid table → table.power ≡ On awake → table.kind ≡ Lpc → IsPlain packet → length packet ≤ 256 →
        SendsBy Lpc packet calls heard → CallsLead table calls new → ServesPacket packet (settled table) heard new }
    ensures off { (table : Table) (packet : List ℕ) (calls : List HostCall) (heard : Heard) (new : Table) →
        table.power ≡ Off → SendsBy Lpc packet calls heard → CallsLead table calls new → heard ≡ Silent }
{}

/// An undisturbed send to a controller that is on is one exchange, call by call and entry by entry: the request that
/// waits is served, and then the packet is handled.
pub fn lpc_exchanges()
    ensures calls { (table : Table) (awake : Awake) (packet : List ℕ) (calls : List HostCall) (heard : Heard)
        (new : Table) (after : Core) (result : ℕ) (body : List ℕ) →
        Valid table → table.kind ≡ Lpc → (settled table).power ≡ On awake → IsPlain packet → length packet ≤ 256 →
        SendsBy Lpc packet calls heard → CallsLead table calls new →
        handled (core_of (settled table) awake) 256 packet ≡ Answered after result body →
        Exchanges (first_statuses table) packet (response_packet result body) after calls heard new }
    ensures entries { (table : Table) (awake : Awake) (packet : List ℕ) (added : List Entry) (heard : Heard)
        (new : Table) (after : Core) (result : ℕ) (body : List ℕ) →
        Valid table → table.kind ≡ Lpc → (settled table).power ≡ On awake → IsPlain packet → length packet ≤ 256 →
        Send Lpc added packet heard → IsRun table added new → IsUndisturbed added →
        IsTrue (list_all is_wire_step added) →
        handled (core_of (settled table) awake) 256 packet ≡ Answered after result body →
        IsExchange (first_statuses table) packet (response_packet result body) after added heard new }
{}

/// An undisturbed send to a controller that is on is a whole transaction, of its packet and of the response that
/// handling this gives, and leaves the bus at rest: from a bus that is at rest, and from any other, once the request
/// that waits is served. From a bus at rest there is such a transaction.
pub fn lpc_transactions()
    ensures at_rest { (table : Table) (awake : Awake) (packet : List ℕ) (entries : List Entry) (heard : Heard)
        (new : Table) (after : Core) (result : ℕ) (body : List ℕ) →
        Valid table → table.kind ≡ Lpc → table.power ≡ On awake → IsTrue (is_at_rest awake.bus) → IsPlain packet →
        length packet ≤ 256 → Send Lpc entries packet heard → IsRun table entries new → IsUndisturbed entries →
        handled (core_of table awake) 256 packet ≡ Answered after result body →
        IsTransacted Lpc packet (response_packet result body) after entries new }
    ensures settled { (table : Table) (awake : Awake) (packet : List ℕ) (entries : List Entry) (heard : Heard)
        (new : Table) (after : Core) (result : ℕ) (body : List ℕ) →
        Valid table → table.kind ≡ Lpc → (settled table).power ≡ On awake → IsPlain packet → length packet ≤ 256 →
        Send Lpc entries packet heard → IsRun table entries new → IsUndisturbed entries →
        handled (core_of (settled table) awake) 256 packet ≡ Answered after result body →
        IsTransacted Lpc packet (response_packet result body) after entries new }
    ensures made { (table : Table) (awake : Awake) (packet : List ℕ) (after : Core) (result : ℕ) (body : List ℕ) →
        Valid table → table.kind ≡ Lpc → table.power ≡ On awake → IsTrue (is_at_rest awake.bus) → IsPlain packet →
        length packet ≤ 256 → handled (core_of table awake) 256 packet ≡ Answered after result body →
        MakesTransaction Lpc packet (response_packet result body) after table
        (lpc_transaction packet (response_packet result body) table) }
{}

/// Where the bus of a controller that is on is brought to rest, and nothing disturbs that, the request that waits was
/// served.
pub fn lpc_quiets()
    ensures { (table : Table) (awake : Awake) (calls : List HostCall) (new : Table) → Valid table →
        table.power ≡ On awake → table.kind ≡ Lpc → QuietBy Lpc calls → CallsLead table calls new →
        Settles (settled table) new }
{}

/// No request waits behind a send, whatever the world did in it and whatever failed.
pub fn lpc_rests()
    ensures { (old : Table) (entries : List Entry) (packet : List ℕ) (heard : Heard) (new : Table) → Valid old →
        Send Lpc entries packet heard → IsRun old entries new → Rests new }
{}
