//! The table of user types.
ghost use Rattle.std.specs.Prelude.{◌≡◌};
ghost use Rattle.std.specs.Option.{option_copied};
ghost use Rattle.qk_value.specs.Kinds.{maker_of, maker_name};

use crate::ty::Ty;
use qk_base::{Bytes, Seq};
use std::marker::Model;

/// A maker of a user type: its name, and the types of its fields.
#[derive(Drop)]
pub struct Maker {
    pub name: Bytes,
    pub fields: Seq<Ty>,
}

impl Model for Maker {
    ghost use Rattle.std.specs.Prelude.{map};
    ghost use Rattle.qk_value.specs.Kinds.{MakerData, maker_code};

    ghost Value = { MakerData };

    ghost coded = { maker_code };

    ghost use Rattle.qk_value.specs.View.{view_type};

    ghost view = { λ m. record { name = m.name.items; fields = map view_type m.fields.items } };
}

/// A user type: its name, and its makers, numbered from 0.
#[derive(Drop)]
pub struct Kind {
    pub name: Bytes,
    pub makers: Seq<Maker>,
}

impl Model for Kind {
    ghost use Rattle.qk_value.specs.Kinds.{KindData, kind_code};

    ghost Value = { KindData };

    ghost coded = { kind_code };

    ghost view = { λ k. record { name = k.name.items; makers = k.makers.items } };
}

/// The table of user types, numbered from 0 in the order of declaration. A contract sees it as the list of its kinds.
#[derive(Drop)]
pub struct Kinds {
    pub kinds: Seq<Kind>,
}

impl Model for Kinds {
    ghost use Rattle.std.specs.Prelude.{List};
    ghost use Rattle.std.specs.Coded.{coded_list};
    ghost use Rattle.qk_value.specs.Kinds.{KindData, kind_code};

    ghost Value = { List KindData };

    ghost coded = { coded_list kind_code };

    ghost view = { λ k. k.kinds.items };
}

impl Kinds {
    /// A maker by its kind's number and its own; `None` exactly where there is none.
    pub fn maker(&self, kind: u32, maker: u32) -> Option<&Maker>
        ensures { option_copied result ≡ maker_of self.now kind maker }
    {
        match self.kinds.get(kind as usize) {
            None => None,
            Some(kind) => kind.makers.get(maker as usize),
        }
    }

    /// The name of a maker, or nothing where there is none.
    pub fn maker_name(&self, kind: u32, maker: u32) -> &[u8]
        ensures { result.now ≡ maker_name self.now kind maker }
    {
        match self.maker(kind, maker) {
            None => &[],
            Some(maker) => maker.name.as_slice(),
        }
    }
}
