//! Clients under test: those who come are served in one loop, each takes its turn, and it is told what came of all of
//! them. No rule of the protocol stands here.
//!
//! The layer above uses `Visitors`, those who come to a listener; `test_clients` and `document_clients`, which run the
//! cases over them and tell them; `capture_client`, the capture of one case; `script_client` and `show_client`, the run
//! of one script over the first of them; and `VisitRules`, how they are met.
#![tactic(auto)]

mod capturing_client;
mod client_documents;
mod client_lines;
mod late_clients;
mod sending_to_client;
mod tested_clients;
mod testing_clients;
mod visit_outcome;
mod visiting;
mod visitors;

pub use capturing_client::capture_client;
pub use client_documents::{ClientDocument, document_clients};
pub use sending_to_client::{ScriptRules, script_client, show_client};
pub use tested_clients::TestedClients;
pub use testing_clients::test_clients;
pub use visiting::{NoVisit, Round, Telling, Visit, VisitRules};
pub use visitors::Visitors;
