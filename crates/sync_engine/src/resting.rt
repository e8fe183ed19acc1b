// What a sync does on the bus besides of commands.
ghost use Rattle.std.specs.Prelude.{◌≡◌, ◌≤◌, ◌+◌, nat_lt, Ok};
ghost use Rattle.sync_rules.specs.Parts.{Rests, Waits, Pauses};
ghost use Rattle.sync_engine.specs.OnWire.{Does};

use ec_wire::Wire;
use host_framing::quiet;
use sync_rules::Stop;

// The room that a send may take.
const SEND_ROOM: usize = 1500;

// How many waits come before a look at the hash: enough for 64 KiB.
const HASH_WAITS: u8 = 64;

// Whether there is too little room above the floor.
fn is_short<W: Wire>(w: &W, floor: usize) -> bool
    requires sum { floor + 1500 ≤ usize.MAX }
    ensures { result ≡ nat_lt (W.view w.now).spare (floor + 1500) }
{
    w.spare() < floor + SEND_ROOM
}

/// Brings the bus to rest.
pub fn rest<W: Wire>(w: &mut W, floor: usize) -> Result<(), Stop>
    requires sum { floor + 1500 ≤ usize.MAX }
    ensures does { Does Rests floor result (W.view w.old) (W.view w.new) }
{
    if is_short(w, floor) {
        return Err(Stop::Lost);
    }
    quiet(w);
    Ok(())
}

// Waits before a look at the hash.
fn wait_often<W: Wire>(w: &mut W, floor: usize)
    requires room { 64 ≤ (W.view w.old).spare }
    ensures does { Does (λ setting. Pauses 64) floor (Ok tt) (W.view w.old) (W.view w.new) }
{
    for _wait in 0..HASH_WAITS {
        w.wait();
    }
}

/// Waits before a look at the hash, where there is room.
pub fn pause<W: Wire>(w: &mut W, floor: usize) -> Result<(), Stop>
    requires sum { floor + 1500 ≤ usize.MAX }
    ensures does { Does (Waits 64) floor result (W.view w.old) (W.view w.new) }
{
    if is_short(w, floor) {
        return Err(Stop::Lost);
    }
    wait_often(w, floor);
    Ok(())
}
