// What is wrong with a line: where, and what was expected there.
ghost use Rattle.std.specs.Prelude.{◌≡◌, Some, None};
ghost use Rattle.script_words.specs.Faults.{kind_of};

use ec_types::Why;
use thiserror::Error;

/// What a line or a word of it should have been. Each text fits behind "not ".
#[derive(Clone, Copy, Debug, PartialEq, Eq, Error)]
pub enum Wanted {
    #[error("a line of at most 16384 bytes")]
    ShortLine,
    #[error("printable ASCII")]
    Printable,
    #[error("one of hello, version, chipinfo, cmdversions, protoinfo, flashinfo, regioninfo, flashread, flashwrite, \
             flasherase, flashprotect, echash, sysinfo, reboot_ec, test, resend, pin, power, reset, tick, cut, at, \
             out, in, i2cw, i2cr, spi, sync, trace and drill")]
    FirstWord,
    /// So many words behind the first one.
    #[error("{count}")]
    Words { count: u8 },
    /// As many words behind `flashprotect` as one of its forms has.
    #[error("0, 1 or 3")]
    ProtectWords,
    /// As many words behind `echash` as one of its forms has.
    #[error("0, 1, 2 or 3")]
    HashWords,
    /// As many words behind `cut` as one of its forms has.
    #[error("1 or 2")]
    CutWords,
    #[error("on or off")]
    Switch,
    #[error("pin or watchdog")]
    Cause,
    #[error("pin, power, reset or byte")]
    WorldEvent,
    #[error("ro, active, wp_ro or update")]
    Region,
    #[error("now, enable or disable")]
    Protection,
    #[error("bits")]
    Bits,
    #[error("abort")]
    HashAbort,
    #[error("start")]
    HashStart,
    #[error("start or range")]
    HashStartOrRange,
    #[error("ro or rw")]
    Image,
    #[error("cancel, RO, RW, disable-jump or cold")]
    Reboot,
    /// A number, with both ends.
    #[error("a number from {least} to {most}")]
    Number { least: u32, most: u32 },
    /// Two hexadecimal digits a byte.
    #[error("hexadecimal bytes, from 1 to {most} of them")]
    Bytes { most: usize },
    /// What stands behind `spi`.
    #[error("select, deselect or hexadecimal bytes, from 1 to {most} of them")]
    SpiBytes { most: usize },
    /// What names a file of the shelf.
    #[error("a name of at most 255 bytes without a slash")]
    Name,
    /// Ports from the one that the line names on.
    #[error("within the ports from there to 65535")]
    Ports,
}

impl Wanted {
    /// The kind of the fault, where it was not so.
    pub fn why(&self) -> Why
        ensures { result ≡ kind_of self.now }
    {
        match self {
            Wanted::ShortLine => Why::TooLong,
            Wanted::Printable => Why::Ascii,
            Wanted::FirstWord
            | Wanted::Switch
            | Wanted::Cause
            | Wanted::WorldEvent
            | Wanted::Region
            | Wanted::Protection
            | Wanted::Bits
            | Wanted::HashAbort
            | Wanted::HashStart
            | Wanted::HashStartOrRange
            | Wanted::Image
            | Wanted::Reboot => Why::Word,
            Wanted::Words { .. } | Wanted::ProtectWords | Wanted::HashWords | Wanted::CutWords =>
                Why::Count,
            Wanted::Number { .. } | Wanted::Ports => Why::Number,
            Wanted::Bytes { .. } | Wanted::SpiBytes { .. } | Wanted::Name => Why::Hex,
        }
    }
}

/// The first fault of a line.
#[derive(Clone, Copy, Debug, PartialEq, Eq)]
pub struct Fault {
    /// The word that is at fault, counted from 1; None where the line as a whole is.
    pub word: Option<u8>,
    /// What was expected.
    pub wanted: Wanted,
}

impl Fault {
    /// A fault of the line as a whole.
    pub fn of_line(wanted: Wanted) -> Fault
        ensures { result ≡ record { word = None; wanted = wanted } }
    {
        Fault { word: None, wanted }
    }

    /// A fault of one word, counted from 1.
    pub fn of_word(word: u8, wanted: Wanted) -> Fault
        ensures { result ≡ record { word = Some word; wanted = wanted } }
    {
        Fault {
            word: Some(word),
            wanted,
        }
    }

    /// Its kind.
    pub fn why(&self) -> Why
        ensures { result ≡ kind_of self.now.wanted }
    {
        self.wanted.why()
    }
}
