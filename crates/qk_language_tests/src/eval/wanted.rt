//! What an evaluation is to give.

use qk_base::Cause;
use qk_eval::Answer;
use qk_value::Value;

/// A value, or a crash.
#[derive(Clone, Copy)]
pub(crate) enum Want {
    Int(i64),
    Bool(bool),
    /// A list of numbers.
    List(&'static [i64]),
    /// A pair of numbers.
    Pair(i64, i64),
    /// A value by that maker of the first user type, with numbers as parts.
    Made(u32, &'static [i64]),
    Crash(Cause),
}

/// Whether the answer is that value with so many units left, or that crash.
pub(crate) fn is_wanted(answer: &Answer, want: Want, units: u32) -> bool {
    match answer {
        Answer::Value { value, left } => is_value(value, want) && *left == units,
        Answer::Crash(cause) => match want {
            Want::Crash(other) => *cause == other,
            _ => false,
        },
    }
}

fn is_value(value: &Value, want: Want) -> bool {
    match (value, want) {
        (Value::Int(n), Want::Int(m)) => *n == m,
        (Value::Bool(b), Want::Bool(c)) => *b == c,
        (Value::List(items), Want::List(numbers)) => are_numbers(items.as_slice(), numbers),
        (Value::Pair(a, b), Want::Pair(m, n)) => is_number(a, m) && is_number(b, n),
        (Value::Made { kind, maker, parts }, Want::Made(wanted, numbers)) => {
            *kind == 0 && *maker == wanted && are_numbers(parts.as_slice(), numbers)
        }
        _ => false,
    }
}

fn is_number(value: &Value, number: i64) -> bool {
    match value {
        Value::Int(n) => *n == number,
        _ => false,
    }
}

fn are_numbers(values: &[Value], numbers: &[i64]) -> bool {
    if values.len() != numbers.len() {
        return false;
    }
    for (value, number) in values.iter().zip(numbers.iter()) {
        if !is_number(value, *number) {
            return false;
        }
    }
    true
}
