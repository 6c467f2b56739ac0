//! The system's network: sockets that don't wait, and one wait for all of them.
//!
//! The layers above use `system_network`, which gives a `SystemNetwork`, a network as `ws_networks` has it, and the
//! `SystemPoller` that waits for its streams. All that names `mio` is in one file. Whoever is to run over such a
//! network or over one in memory takes a `Connector`, of which `SystemConnector` is the system's. `is_of_lost_client`
//! says which failures of an accept are passed over.
#![tactic(auto)]

mod connector;
mod lost_clients;
mod system;

pub use connector::{ConnectMiss, Connector, EndingStream, StreamEnd};
pub use lost_clients::is_of_lost_client;
pub use system::{
    SystemConnector, SystemListener, SystemNetwork, SystemPoller, SystemStream, system_network,
};
