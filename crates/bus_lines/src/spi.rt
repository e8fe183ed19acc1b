// Calls of the host on SPI, one after the other.
ghost use Rattle.std.specs.Prelude.{◌≡◌, ◌≤◌, ◌+◌, ◌*◌, [], length};
ghost use Rattle.bus_lines.specs.Making.{SendsSpi};

use bench_io::LineText;
use ec_model::Access;
use ec_wire::Wire;
use script_words::HexBytes;

/// Sends the bytes. The text, which is empty, becomes that of the bytes that the host got.
pub fn send<W: Wire>(w: &mut W, bytes: &HexBytes<'_>, text: &mut LineText)
    requires few { length bytes.now ≤ 8192 }
    requires room { length bytes.now ≤ (W.view w.old).spare }
    requires empty { text.old ≡ [] }
    ensures sends { SendsSpi bytes.now text.new (W.view w.old) (W.view w.new) }
    ensures long { length text.new ≡ 2 * length bytes.now }
{
    for place in 0..bytes.len() {
        let byte = w.access(Access::SpiByte {
            byte: bytes.byte(place),
        });
        text.append_byte(byte);
    }
}
