//! What reading a list answers.

use crate::fault::ListFault;

/// The words of a list up to its done word, or up to and with the first one that cannot be followed, and why it cannot.
#[derive(Drop)]
pub struct Walk {
    pub words: Vec<u64>,
    pub fault: Option<ListFault>,
}
