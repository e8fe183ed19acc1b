// What no contract says: with ample memory a journal gets its room, and an entry takes 8 bytes of it.
use crate::Journal;
use crate::packed::Packed;
use ec_model::{Access, Entry, Event, Hurt};
use ec_types::{COMMAND_PROTOCOL_3, lpc};
use std::mem::size_of;
use std::test::Fail;

#[test]
fn keeps_what_was_pushed(rt: HostRuntime) -> Result<(), Fail> {
    let step = Entry::Step {
        event: Event::Access {
            a: Access::PortOut {
                port: lpc::COMMAND_PORT,
                byte: COMMAND_PROTOCOL_3,
            },
        },
        answer: 0,
        meant: COMMAND_PROTOCOL_3,
        seen: 0,
        hurt: Hurt::Whole,
    };
    let mark = Entry::Mark { line: 0x01020304 };
    let mut journal = Journal::new(rt.alloc());
    journal.reserve(2)?;
    assert_eq!(rt; journal.spare(), 2);
    journal.push(mark);
    journal.push(step);
    assert_eq!(rt; journal.len(), 2);
    assert_eq!(rt; journal.get(0), mark);
    assert_eq!(rt; journal.get(1), step);
    Ok(())
}

#[test]
fn keeps_an_entry_in_8_bytes(rt: HostRuntime) {
    assert_eq!(rt; size_of::<Packed>(), 8);
}
