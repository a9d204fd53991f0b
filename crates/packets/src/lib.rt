// Reading IPv4 packets as RFC 791 lays them out.
#![tactic(auto)]

pub mod checksum;
pub mod facts;
pub mod fault;
pub mod header;
pub mod packet;

pub use fault::PacketFault;
pub use header::read;
pub use packet::{Packet, Ports};
