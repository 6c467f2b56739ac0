//! `test_row_frames`: answers rows of calls that need no session: of headers, masking, texts by pieces, close payloads
//! and the opening handshake; and has the words of all rows.
#![tactic(auto)]

mod answer_words;
mod answering;
mod frames;
mod protocols;
mod row_fault;
mod texts;
mod upgrades;
mod words;

pub use answer_words::{put, put_hex, put_number, put_shown};
pub use answering::answer;
pub use row_fault::RowFault;
pub use words::{
    both_limits_of, bytes_of, code_of, expectation_of, fin_of, header_key_of, limits_of,
    mask_key_of, most_of, number_of, pieces_of, role_of, session_key_of, small_number_of,
};
