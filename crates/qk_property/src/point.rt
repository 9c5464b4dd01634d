//! The points of a shrink.
ghost use Rattle.std.specs.Prelude.{◌≡◌, IfOk, map};
ghost use Rattle.qk_value.specs.View.{view_value};

use qk_base::{Cause, Memory, Seq};
use qk_eval::{Shared, plain_all};
use qk_value::Value;
use std::alloc::Global;
use std::marker::Model;

/// The values of a property's binders, or those before the binder whose drawing crashed, with the cause. Points share the parts of
/// their values, so that a candidate costs little more than what it does not share.
#[derive(Drop)]
pub struct Point {
    pub values: Vec<Shared>,
    pub crash: Option<Cause>,
}

impl Model for Point {
    ghost use Rattle.qk_command.specs.Drawing.{DrawnValues};
    ghost use Rattle.qk_property.specs.Points.{point_code};

    ghost Value = { DrawnValues };

    ghost coded = { point_code };

    ghost view = { λ p. record { values = p.values.items; crash = p.crash } };
}

impl Point {
    /// The values, no longer shared.
    pub fn plain_values(&self, alloc: Global) -> Result<Seq<Value>, Memory>
        ensures { IfOk result (λ values. map view_value values.items ≡ self.now.values) }
    {
        let values = plain_all(alloc, &self.values)?;
        Ok(values)
    }
}
