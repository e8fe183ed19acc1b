// Calls of the host on I2C, one after the other.
ghost use Rattle.std.specs.Prelude.{◌≡◌, ◌≤◌, ◌+◌, ◌*◌, [], length, codes};
ghost use Rattle.script_lines.specs.declared.line.BusLine.TheVariants.{I2cWrite, I2cRead};
ghost use Rattle.bus_lines.specs.Making.{WritesI2c, ReadsI2c, DoesBusLine};

use bench_io::LineText;
use ec_model::Access;
use ec_wire::Wire;
use script_words::HexBytes;

// Writes the bytes.
fn write_bytes<W: Wire>(w: &mut W, bytes: &HexBytes<'_>)
    requires { length bytes.now ≤ (W.view w.old).spare }
    ensures writes { WritesI2c bytes.now (W.view w.old) (W.view w.new) }
    ensures room { (W.view w.new).spare + length bytes.now ≡ (W.view w.old).spare }
{
    for place in 0..bytes.len() {
        w.access(Access::I2cWrite {
            byte: bytes.byte(place),
        });
    }
}

// Reads so many bytes. The text, which is empty, becomes that of the bytes that the host got.
fn read_bytes<W: Wire>(w: &mut W, count: u16, text: &mut LineText)
    requires few { count ≤ 4096 }
    requires room { count ≤ (W.view w.old).spare }
    requires empty { text.old ≡ [] }
    ensures reads { ReadsI2c count text.new (W.view w.old) (W.view w.new) }
    ensures long { length text.new ≡ 2 * count }
    ensures room { (W.view w.new).spare + count ≡ (W.view w.old).spare }
{
    for _turn in 0..count {
        let byte = w.access(Access::I2cRead);
        text.append_byte(byte);
    }
}

/// Starts a write, writes the bytes, and stops.
pub fn write<W: Wire>(w: &mut W, bytes: &HexBytes<'_>)
    requires { length bytes.now + 2 ≤ (W.view w.old).spare }
    ensures { DoesBusLine (I2cWrite bytes.now) (codes "ok") (W.view w.old) (W.view w.new) }
{
    w.access(Access::I2cStartWrite);
    write_bytes(w, bytes);
    w.access(Access::I2cStop);
}

/// Starts a read, reads so many bytes, and stops. The text, which is empty, becomes that of the bytes that the host got.
pub fn read<W: Wire>(w: &mut W, count: u16, text: &mut LineText)
    requires few { count ≤ 4096 }
    requires room { count + 2 ≤ (W.view w.old).spare }
    requires empty { text.old ≡ [] }
    ensures does { DoesBusLine (I2cRead count) text.new (W.view w.old) (W.view w.new) }
    ensures long { length text.new ≡ 2 * count }
{
    w.access(Access::I2cStartRead);
    read_bytes(w, count, text);
    w.access(Access::I2cStop);
}
