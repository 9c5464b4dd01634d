//! A checked program: its numbered tables.
ghost use Rattle.std.specs.Prelude.{◌≡◌, ◌<◌, ◌^◌, length, slice_get, Some};

use crate::definitions::{Function, ModelDef, UserGen};
use crate::property::Property;
use qk_base::Seq;
use qk_value::Kinds;
use std::marker::Model;

/// A checked program: its tables, numbered from 0 in the order of declaration. A contract sees the tables as lists.
#[derive(Drop)]
pub struct Core {
    kinds: Kinds,
    functions: Seq<Function>,
    generators: Seq<UserGen>,
    models: Seq<ModelDef>,
    properties: Seq<Property>,
}

impl Model for Core {
    ghost use Rattle.std.specs.Prelude.{◌<◌, ◌^◌, length};
    ghost use Rattle.qk_core.specs.Program.{ProgramData, program_code};

    ghost Value = { ProgramData };

    ghost coded = { program_code };

    ghost view = { λ c. record { kinds = c.kinds; functions = c.functions.items; generators = c.generators.items; models = c.models.items; properties = c.properties.items } };

    ghost invariant = { λ c. (length c.functions.items < 2 ^ 32) × (length c.generators.items < 2 ^ 32) × (length c.models.items < 2 ^ 32) × (length c.properties.items < 2 ^ 32) };
}

impl Core {
    /// The program with these tables. It does not look into them: that the parts fit one another is what elaboration answers for.
    pub fn of_tables(
        kinds: Kinds,
        functions: Seq<Function>,
        generators: Seq<UserGen>,
        models: Seq<ModelDef>,
        properties: Seq<Property>,
    ) -> Core
        requires functions { length functions.items < 2 ^ 32 }
        requires generators { length generators.items < 2 ^ 32 }
        requires models { length models.items < 2 ^ 32 }
        requires properties { length properties.items < 2 ^ 32 }
        ensures kinds { result.kinds ≡ kinds }
        ensures functions { result.functions ≡ functions.items }
        ensures generators { result.generators ≡ generators.items }
        ensures models { result.models ≡ models.items }
        ensures properties { result.properties ≡ properties.items }
    {
        Core {
            kinds,
            functions,
            generators,
            models,
            properties,
        }
    }

    /// The table of user types.
    pub fn kinds(&self) -> &Kinds
        ensures { result.now ≡ self.now.kinds }
    {
        &self.kinds
    }

    /// The number of functions.
    pub fn functions(&self) -> u32
        ensures { result ≡ length self.now.functions }
    {
        self.functions.len() as u32
    }

    /// The number of generators.
    pub fn generators(&self) -> u32
        ensures { result ≡ length self.now.generators }
    {
        self.generators.len() as u32
    }

    /// The number of models.
    pub fn models(&self) -> u32
        ensures { result ≡ length self.now.models }
    {
        self.models.len() as u32
    }

    /// The number of properties.
    pub fn properties(&self) -> u32
        ensures { result ≡ length self.now.properties }
    {
        self.properties.len() as u32
    }

    /// The function of that number.
    pub fn function(&self, number: u32) -> &Function
        requires { number < length self.now.functions }
        ensures { Some result.now ≡ slice_get self.now.functions number }
    {
        &self.functions.as_slice()[number as usize]
    }

    /// The generator of that number.
    pub fn generator(&self, number: u32) -> &UserGen
        requires { number < length self.now.generators }
        ensures { Some result.now ≡ slice_get self.now.generators number }
    {
        &self.generators.as_slice()[number as usize]
    }

    /// The model of that number.
    pub fn model(&self, number: u32) -> &ModelDef
        requires { number < length self.now.models }
        ensures { Some result.now ≡ slice_get self.now.models number }
    {
        &self.models.as_slice()[number as usize]
    }

    /// The property of that number.
    pub fn property(&self, number: u32) -> &Property
        requires { number < length self.now.properties }
        ensures { Some result.now ≡ slice_get self.now.properties number }
    {
        &self.properties.as_slice()[number as usize]
    }
}
