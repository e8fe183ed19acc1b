// Calls of the host on the ports of LPC, one after the other.
ghost use Rattle.std.specs.Prelude.{◌≡◌, ◌≤◌, ◌+◌, ◌*◌, [], length};
ghost use Rattle.bus_lines.specs.Making.{WritesPorts, ReadsPorts};

use bench_io::LineText;
use ec_model::Access;
use ec_wire::Wire;
use script_words::HexBytes;

/// Writes the bytes to the ports from this one on.
pub fn write_in_row<W: Wire>(w: &mut W, port: u16, bytes: &HexBytes<'_>)
    requires ports { port + length bytes.now ≤ 65536 }
    requires room { length bytes.now ≤ (W.view w.old).spare }
    ensures { WritesPorts port bytes.now (W.view w.old) (W.view w.new) }
{
    for place in 0..bytes.len() {
        w.access(Access::PortOut {
            port: port + place as u16,
            byte: bytes.byte(place),
        });
    }
}

/// Reads so many ports from this one on. The text, which is empty, becomes that of the bytes that the host got.
pub fn read_in_row<W: Wire>(w: &mut W, port: u16, count: u16, text: &mut LineText)
    requires ports { port + count ≤ 65536 }
    requires few { count ≤ 4096 }
    requires room { count ≤ (W.view w.old).spare }
    requires empty { text.old ≡ [] }
    ensures reads { ReadsPorts port count text.new (W.view w.old) (W.view w.new) }
    ensures long { length text.new ≡ 2 * count }
{
    for place in 0..count {
        let byte = w.access(Access::PortIn { port: port + place });
        text.append_byte(byte);
    }
}
