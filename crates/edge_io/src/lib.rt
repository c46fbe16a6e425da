//! The outside of the archive: sources and sinks of bytes, clocks, hosts of connections, and peers.
//! Allocates.
//!
//! Each has a count of faults, and a version in memory. Here are also words written to a sink, and
//! scripts of the events that a server runs on.
#![tactic(auto)]

mod arrivals;
mod clock;
mod conn_sink;
mod events;
mod frames;
mod host;
mod marks;
mod mem_clock;
mod mem_host;
mod mem_peer;
mod mem_sink;
mod mem_source;
mod outlets;
mod peer;
mod phrase;
mod reading;
mod script_host;
mod scripts;
mod sink;
mod source;

pub use clock::{Clock, ClockFault};
pub use conn_sink::ConnSink;
pub use events::{Door, Event, What};
pub use host::{Host, HostFault};
pub use mem_clock::MemClock;
pub use mem_host::MemHost;
pub use mem_peer::MemPeer;
pub use mem_sink::MemSink;
pub use mem_source::MemSource;
pub use peer::{Peer, PeerRefusal, Reply};
pub use phrase::{say, say_line};
pub use reading::{read_in_one_way, script};
pub use script_host::ScriptHost;
pub use scripts::{Script, ScriptRefusal};
pub use sink::{Sink, SinkFault};
pub use source::{Source, SourceFault};
