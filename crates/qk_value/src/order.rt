//! Equality, and the law of the order.
ghost use Rattle.std.specs.Prelude.{◌≡◌, ◌↔◌, IsTrue};
ghost use Rattle.std.specs.Cmp.{IsTotalOrder};
ghost use Rattle.std.specs.declared.cmp.Ordering.TheVariants.{Equal};
ghost use Rattle.qk_value.specs.Data.{Data};
ghost use Rattle.qk_value.specs.Order.{compare};
ghost use Rattle.qk_value.specs.View.{view_value};

use crate::value::Value;

/// The law of `Value::compare`: it is a total order of all values, and just equal values compare as equal.
pub fn order_is_total()
    ensures total { IsTotalOrder compare }
    ensures equal { (a b : Data) → (compare a b ≡ Equal) ↔ (a ≡ b) }
{}

impl Value {
    /// Whether the values are equal, wherever they lie.
    pub fn equal(&self, other: &Value) -> bool
        ensures { IsTrue result ↔ (view_value self.now ≡ view_value other.now) }
    {
        self.compare(other).is_eq()
    }
}
