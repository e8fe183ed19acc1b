// What commands are made and read in.
use ec_packet::Packet;

/// The body and the packet of the request at hand, the reply to it, and the piece of the image that is written. What
/// they had is no matter.
#[derive(Drop)]
pub struct Buffers {
    pub body: Packet,
    pub packet: Packet,
    pub reply: Packet,
    pub piece: Packet,
}

impl Buffers {
    /// All of them empty.
    pub fn new() -> Buffers {
        Buffers {
            body: Packet::new(),
            packet: Packet::new(),
            reply: Packet::new(),
            piece: Packet::new(),
        }
    }
}
