//! The data port: framed requests for stored trip data and general data, and the replies to them, from the durable
//! state and the seal. Nothing takes memory. All of it is this project's own.
#![tactic(auto)]

mod contents;
mod port;
mod reply;
mod reply_laws;
mod request;
mod serving;
mod state;
mod stream_laws;

pub use port::{BadFrame, Port};
pub use reply::put_reply;
pub use reply_laws::{replies_are_read_back, replies_speak_of_their_items};
pub use request::Request;
pub use serving::{PortFault, serve};
pub use stream_laws::{
    a_port_is_known_by_its_bytes, more_bytes_add_requests, pieces_give_the_requests_of_all_bytes,
    streams_are_read_by_their_frames,
};
