// What holds on I2C, from a valid table.
ghost use Rattle.std.specs.Prelude.{◌≡◌, ◌≤◌, ◌+◌, List, ℕ, length};
ghost use Rattle.ec_types.specs.declared.bus.BusKind.TheVariants.{I2c};
ghost use Rattle.ec_model.specs.declared.event.Entry.{Entry};
ghost use Rattle.ec_model.specs.Packet.{response_packet};
ghost use Rattle.ec_model.specs.HostCalls.{HostCall};
ghost use Rattle.ec_model.specs.Table.{Table, Awake, Core, Off, On, Valid, core_of};
ghost use Rattle.ec_model.specs.Answer.{Answered};
ghost use Rattle.ec_model.specs.Handle.{handled};
ghost use Rattle.ec_model.specs.Heard.{Heard, Reply, Silent};
ghost use Rattle.ec_model.specs.Run.{IsRun};
ghost use Rattle.ec_model.specs.Send.{SendsBy, QuietBy};
ghost use Rattle.ec_model.specs.Syncable.{settled};
ghost use Rattle.exchange_laws.specs.Calm.{CallsLead};
ghost use Rattle.exchange_laws.specs.Resting.{Rests};
ghost use Rattle.exchange_laws.specs.Served.{IsPlain, ServesPacket, Settles};
ghost use Rattle.exchange_laws.specs.Transaction.{MakesTransaction, i2c_transaction};

/// From whatever state of a controller that is on, there is a whole transaction of each packet whose response fits, and
/// it leaves the bus at rest.
pub fn i2c_transactions()
    ensures { (table : Table) (awake : Awake) (packet : List ℕ) (after : Core) (result : ℕ) (body : List ℕ) →
        Valid table →
        table.kind ≡ I2c → table.power ≡ On awake → length packet ≤ 128 → length body ≤ 120 →
        handled (core_of table awake) 128 packet ≡ Answered after result body →
        MakesTransaction I2c packet (response_packet result body) after table
        (i2c_transaction packet (response_packet result body)) }
{}

/// An undisturbed send to a controller that is on is served, call by call. One to a controller that is off hears
/// nothing. The number of calls of one that heard a reply follows from the lengths of the packet and of the reply,
/// whatever disturbed it.
pub fn i2c_sends()
    ensures on { (table : Table) (awake : Awake) (packet : List ℕ) (calls : List HostCall) (heard : Heard)
        (new : Table) → Valid table → table.power ≡ On awake → table.kind ≡ I2c → IsPlain packet → length packet ≤ 128 →
        SendsBy I2c packet calls heard → CallsLead table calls new → ServesPacket packet (settled table) heard new }
    ensures off { (table : Table) (packet : List ℕ) (calls : List HostCall) (heard : Heard) (new : Table) →
        table.power ≡ Off → SendsBy I2c packet calls heard → CallsLead table calls new → heard ≡ Silent }
    ensures calls { (table : Table) (awake : Awake) (packet : List ℕ) (calls : List HostCall) (heard : Heard)
        (new : Table) (after : Core) (result : ℕ) (body : List ℕ) →
        Valid table → table.power ≡ On awake → table.kind ≡ I2c → length packet ≤ 128 →
        SendsBy I2c packet calls heard → CallsLead table calls new →
        handled (core_of table awake) 128 packet ≡ Answered after result body →
        calls ≡ i2c_transaction packet (response_packet result body) }
    ensures count { (packet : List ℕ) (calls : List HostCall) (response : List ℕ) →
        SendsBy I2c packet calls (Reply response) → length calls ≡ length packet + length response + 6 }
{}

/// Where the bus of a controller that is on is brought to rest, and nothing disturbs that, nothing else changes.
pub fn i2c_quiets()
    ensures { (table : Table) (awake : Awake) (calls : List HostCall) (new : Table) → Valid table →
        table.power ≡ On awake → table.kind ≡ I2c → QuietBy I2c calls → CallsLead table calls new →
        Settles (settled table) new }
{}

/// No request waits for a tick, whatever the world did and whatever failed: so none waits behind a send.
pub fn i2c_rests()
    ensures { (old : Table) (entries : List Entry) (new : Table) → Valid old → old.kind ≡ I2c →
        IsRun old entries new → Rests new }
{}
