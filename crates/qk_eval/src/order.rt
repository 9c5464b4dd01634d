//! The order of shared values, which is that of the values that they stand for.
ghost use Rattle.std.specs.Prelude.{◌≡◌};
ghost use Rattle.qk_value.specs.Data.{Data, datas_of};
ghost use Rattle.qk_value.specs.Order.{compare as compare_of, compare_all as compare_all_of, rank as rank_of};
ghost use Rattle.qk_eval.specs.Forms.{data_in, to_come};

use crate::form::Form;
use crate::items::Items;
use crate::shared::Shared;
use std::cmp::Ordering;

impl Shared {
    /// The order of `Value::compare`. It costs a step for each part up to the first difference, and of a list no machine stack.
    #[cycle(compare)]
    pub fn compare(&self, other: &Shared) -> Ordering
        ensures { result ≡ compare_of self.now other.now }
    {
        match (self.form(), other.form()) {
            (Form::Int(m), Form::Int(n)) => m.cmp(&n),
            (Form::Bool(b), Form::Bool(c)) => b.cmp(&c),
            (Form::List(xs), Form::List(ys)) => compare_items(xs, ys),
            (Form::Pair(a, b), Form::Pair(c, d)) => {
                let order = a.compare(c);
                order.then(b.compare(d))
            }
            (
                Form::Made { kind, maker, parts },
                Form::Made {
                    kind: other_kind,
                    maker: other_maker,
                    parts: other_parts,
                },
            ) => {
                let order = compare_all(parts, other_parts);
                kind.cmp(&other_kind)
                    .then(maker.cmp(&other_maker))
                    .then(order)
            }
            (a, b) => rank(a).cmp(&rank(b)),
        }
    }
}

#[cycle(compare)]
fn compare_items(items: Items, others: Items) -> Ordering
    ensures { result ≡ compare_all_of (to_come items.entry) (to_come others.entry) }
{
    let mut xs = items;
    let mut ys = others;
    'items: loop {
        match (xs.next(), ys.next()) {
            (Some((x, more_xs)), Some((y, more_ys))) => {
                let order = x.compare(y);
                if order != Ordering::Equal {
                    return order;
                }
                xs = more_xs;
                ys = more_ys;
            }
            (Some(_), None) => return Ordering::Greater,
            (None, Some(_)) => return Ordering::Less,
            (None, None) => return Ordering::Equal,
        }
    }
}

fn rank(form: Form) -> u8
    ensures { result ≡ rank_of (data_in form.entry) }
{
    match form {
        Form::Int(_) => 0,
        Form::Bool(_) => 1,
        Form::List(_) => 2,
        Form::Pair(..) => 3,
        Form::Made { .. } => 4,
    }
}

#[cycle(compare)]
fn compare_all(xs: &[Shared], ys: &[Shared]) -> Ordering
    ensures { result ≡ compare_all_of (datas_of xs.now) (datas_of ys.now) }
{
    let shared = xs.len().min(ys.len());
    for i in 0..shared {
        let order = xs[i].compare(&ys[i]);
        if order != Ordering::Equal {
            return order;
        }
    }
    xs.len().cmp(&ys.len())
}
