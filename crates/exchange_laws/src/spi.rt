// What holds on SPI, from a valid table.
ghost use Rattle.std.specs.Prelude.{◌≡◌, ◌≤◌, List, ℕ, length};
ghost use Rattle.ec_types.specs.declared.bus.BusKind.TheVariants.{Spi};
ghost use Rattle.ec_model.specs.declared.event.Entry.{Entry};
ghost use Rattle.ec_model.specs.Packet.{response_packet};
ghost use Rattle.ec_model.specs.HostCalls.{HostCall};
ghost use Rattle.ec_model.specs.Table.{Table, Awake, Core, Off, On, Valid, core_of};
ghost use Rattle.ec_model.specs.Answer.{Answered};
ghost use Rattle.ec_model.specs.Handle.{handled};
ghost use Rattle.ec_model.specs.Run.{IsRun};
ghost use Rattle.ec_model.specs.Heard.{Heard, Silent};
ghost use Rattle.ec_model.specs.Send.{Send, SendsBy, QuietBy};
ghost use Rattle.ec_model.specs.Syncable.{settled};
ghost use Rattle.exchange_laws.specs.Calm.{CallsLead};
ghost use Rattle.exchange_laws.specs.Resting.{Rests};
ghost use Rattle.exchange_laws.specs.Served.{IsPlain, ServesPacket, Settles};
ghost use Rattle.exchange_laws.specs.Transaction.{MakesTransaction, spi_transaction};

/// From whatever state of a controller that is on, there is a whole transaction of each plain packet whose response
/// fits, and it leaves the bus at rest.
pub fn spi_transactions()
    ensures { (table : Table) (awake : Awake) (packet : List ℕ) (after : Core) (result : ℕ) (body : List ℕ) →
        Valid table →
        table.kind ≡ Spi → table.power ≡ On awake → IsPlain packet → length packet ≤ 544 → length body ≤ 536 →
        handled (core_of table awake) 544 packet ≡ Answered after result body →
        MakesTransaction Spi packet (response_packet result body) after table
        (spi_transaction packet (response_packet result body)) }
{}

/// An undisturbed send to a controller that is on is served, and each of its calls is known: a request that waits is
/// dropped, as the host selects. One to a controller that is off hears nothing.
pub fn spi_sends()
    ensures on { (table : Table) (awake : Awake) (packet : List ℕ) (calls : List HostCall) (heard : Heard)
        (new : Table) → Valid table → table.power ≡ On awake → table.kind ≡ Spi → IsPlain packet → length packet ≤ 544 →
        SendsBy Spi packet calls heard → CallsLead table calls new → ServesPacket packet (settled table) heard new }
    ensures calls { (table : Table) (awake : Awake) (packet : List ℕ) (calls : List HostCall) (heard : Heard)
        (new : Table) (after : Core) (result : ℕ) (body : List ℕ) →
        Valid table → table.power ≡ On awake → table.kind ≡ Spi → IsPlain packet → length packet ≤ 544 →
        SendsBy Spi packet calls heard → CallsLead table calls new →
        handled (core_of table awake) 544 packet ≡ Answered after result body →
        calls ≡ spi_transaction packet (response_packet result body) }
    ensures off { (table : Table) (packet : List ℕ) (calls : List HostCall) (heard : Heard) (new : Table) →
        table.power ≡ Off → SendsBy Spi packet calls heard → CallsLead table calls new → heard ≡ Silent }
{}

/// Where the bus of a controller that is on is brought to rest, and nothing disturbs that, a request that waits is
/// dropped, and all but the bus stays.
pub fn spi_quiets()
    ensures { (table : Table) (awake : Awake) (calls : List HostCall) (new : Table) → Valid table →
        table.power ≡ On awake → table.kind ≡ Spi → QuietBy Spi calls → CallsLead table calls new →
        Settles (settled table) new }
{}

/// No request waits behind a send, whatever the world did in it and whatever failed.
pub fn spi_rests()
    ensures { (old : Table) (entries : List Entry) (packet : List ℕ) (heard : Heard) (new : Table) → Valid old →
        old.kind ≡ Spi → Send Spi entries packet heard → IsRun old entries new → Rests new }
{}
