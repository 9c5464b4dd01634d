//! A status with its text.

use qk_base::{Bytes, Status};

/// What a call is to answer and to write.
#[derive(Drop)]
pub struct Made {
    pub status: Status,
    pub text: Bytes,
}
