// What a line says.
use crate::Name;
use ec_model::{WorldEvent, WorldReset};
use script_words::HexBytes;

/// What a line of a script says. Bytes stand in the line.
#[derive(Drop)]
pub enum Line<'a> {
    /// It does nothing: it is empty, has spaces alone, or begins with `#`.
    Nothing,
    /// Its first word is no word of these lines: it is a line that sends commands, or none at all.
    Tool,
    /// `pin on`, `pin off`: the write-protect pin changes.
    Pin {
        /// Whether it is asserted.
        on: bool,
    },
    /// `power on`, `power off`: the power changes.
    Power {
        /// Whether it comes.
        on: bool,
    },
    /// `reset pin`, `reset watchdog`: a reset from outside.
    Reset {
        cause: WorldReset,
    },
    /// `cut N`, `cut N HEX`: power is to be lost in a flash operation to come.
    Cut {
        /// In which operation from now, counted from 1; 0 disarms the cut.
        operation: u32,
        /// What it leaves of that operation's first bytes, at most 4,096 of them.
        torn: HexBytes<'a>,
    },
    /// `at N pin V`, `at N power V`, `at N reset C`, `at N byte B`: an event of the world is to fall before a call to come.
    At {
        /// Before which access or wait from now, counted from 1.
        call: u32,
        event: WorldEvent,
    },
    /// `sync NAME`: the host brings RW to an image of the shelf, to run.
    Sync {
        /// The image's name.
        name: Name<'a>,
    },
    /// `drill X N`: rounds of an image that is synced while power is cut, and then synced again.
    Drill {
        /// What the images and the cuts are drawn from.
        x: u32,
        /// How many rounds, 1 to 64.
        rounds: u32,
    },
    /// `trace`: the entries of the line before that did something are counted.
    Trace,
    /// It calls the bus itself.
    Bus(BusLine<'a>),
}

/// What a line of a script says that calls the bus itself. Bytes stand in the line.
#[derive(Drop)]
pub enum BusLine<'a> {
    /// `tick N`: the host waits.
    Tick {
        /// How often, 1 to 100,000 times.
        count: u32,
    },
    /// `out P HEX`: bytes are written to ports in a row, the last of which is at most 65,535.
    PortsOut {
        /// The first port.
        port: u16,
        /// At least one byte, one for each port.
        bytes: HexBytes<'a>,
    },
    /// `in P N`: ports in a row are read, the last of which is at most 65,535.
    PortsIn {
        /// The first port.
        port: u16,
        /// How many ports, 1 to 4,096.
        count: u16,
    },
    /// `i2cw HEX`: a write is started on I2C, the bytes are written, and it is stopped.
    I2cWrite {
        /// At least one byte.
        bytes: HexBytes<'a>,
    },
    /// `i2cr N`: a read is started on I2C, bytes are read, and it is stopped.
    I2cRead {
        /// How many bytes, 1 to 4,096.
        count: u16,
    },
    /// `spi select`: SPI is selected.
    SpiSelect,
    /// `spi deselect`: SPI is deselected.
    SpiDeselect,
    /// `spi HEX`: bytes are exchanged on SPI.
    SpiBytes {
        /// At least one byte.
        bytes: HexBytes<'a>,
    },
}
