//! Values with what they leave of a weight.

use qk_base::Seq;
use qk_value::Value;

/// A value, and what it leaves of the weight that was given for it.
#[derive(Drop)]
pub(crate) struct Weighed {
    pub(crate) value: Value,
    pub(crate) left: u32,
}

/// Values, and what they leave of the weight that was given for all of them.
#[derive(Drop)]
pub(crate) struct WeighedParts {
    pub(crate) values: Seq<Value>,
    pub(crate) left: u32,
}
