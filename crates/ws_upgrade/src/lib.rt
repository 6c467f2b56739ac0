//! The heads of the opening handshake (RFC 6455 section 4): made, and accepted or refused by its rules.
//!
//! The layers above use the contracts of `read_request_with`, `read_response_with`, `request_of`, `response_of` and
//! `refusal`, and of `is_host`, `are_offers` and `Offers::chosen`.
#![tactic(auto)]

mod accepting;
mod added_headers;
mod faults;
mod head_lines;
mod headers;
mod members;
mod openings;
mod parts;
mod protocols;
mod reading;
mod requests;
mod responses;
mod writing;

pub use accepting::accept_of;
pub use added_headers::{AddedHeader, AddedHeaders, are_added_headers};
pub use faults::{HeadFault, RequestFault, ResponseFault};
pub use openings::read_response_to;
pub use parts::{Host, Path, is_host, is_path};
pub use protocols::{Offers, ProtocolName, are_offers, is_protocol_name};
pub use reading::MAX_HEAD;
pub use requests::{RequestRead, Upgrade, read_request, read_request_with};
pub use responses::{ResponseRead, read_response, read_response_with, status_of};
pub use writing::{
    refusal, request, request_for, request_of, request_with, response, response_of, response_with,
};
