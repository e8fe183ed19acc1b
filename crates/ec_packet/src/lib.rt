//! Packets of the command protocol's version 3: requests and responses, written and read.
//!
//! It stands on `ec_model`, whose definitions say how each is spelled. The controller reads requests and writes
//! responses, the host writes requests and reads responses, and both keep them in a `Packet`. The contract that
//! matters: there is one spelling of each, a decoder accepts it whatever follows a request, and what is refused is
//! refused by its first test that fails (`decode_request`, `decode_response`).
#![tactic(auto)]

mod checksum;
mod packet;
mod request;
mod response;

pub use checksum::TooLong;
pub use packet::{HEADER_LENGTH, LARGEST_BODY, Packet};
pub use request::{REQUEST_VERSION, Request, decode_request, encode_request, write_request};
pub use response::{
    BadReply, RESPONSE_VERSION, Response, decode_response, encode_response, is_response,
    write_response,
};

#[cfg(test)]
mod tests;
