//! A list of commands while it is drawn.
ghost use Rattle.std.specs.Prelude.{◌≡◌, ◌++◌, ◌∷◌, [], Ok, Err, IfOk, MatchResult};
ghost use Rattle.qk_value.specs.Data.{Data, list, datas_of};
ghost use Rattle.qk_eval.specs.Parts.{small};

use qk_base::{Cause, Memory};
use qk_eval::Shared;
use std::alloc::Global;
use std::marker::Model;

/// Commands, with the weight and the depth of their list, which is small.
#[derive(Drop)]
pub(crate) struct Commands {
    items: Vec<Shared>,
    weight: u64,
    depth: u64,
}

impl Model for Commands {
    ghost use Rattle.std.specs.Prelude.{◌≡◌, ◌+◌, ◌≤◌, List};
    ghost use Rattle.qk_value.specs.Data.{Data, datas_of};
    ghost use Rattle.qk_value.specs.Measures.{weights, depths};
    ghost use base.Stored.{coded_list};
    ghost use Rattle.qk_value.specs.Code.{data_code};

    ghost Value = { List Data };

    ghost coded = { coded_list data_code };

    ghost view = { λ c. c.items.items };

    ghost invariant = { λ c. (c.weight ≡ weights (datas_of c.items.items) + 1) × (c.depth ≡ depths (datas_of c.items.items) + 1) × (c.weight ≤ 65536) × (c.depth ≤ 200) };
}

impl Commands {
    /// No command.
    pub(crate) fn none(alloc: Global) -> Commands
        ensures { result ≡ [] }
    {
        Commands {
            items: Vec::new(alloc),
            weight: 1,
            depth: 1,
        }
    }

    /// One more command, unless the list is then too heavy or else too deep.
    pub(crate) fn push(&mut self, command: &Shared) -> Result<Result<(), Cause>, Memory>
        ensures added { IfOk result (λ r. MatchResult r (λ _. self.new ≡ self.old ++ command.now ∷ []) (λ _. self.new ≡ self.old)) }
        ensures small { IfOk result (λ r. MatchResult r (λ _. small (list (datas_of (self.old ++ command.now ∷ []))) ≡ Ok (list (datas_of (self.old ++ command.now ∷ [])))) (λ cause. small (list (datas_of (self.old ++ command.now ∷ []))) ≡ Err cause)) }
    {
        command.is_small();
        let weight = self.weight + command.weight();
        let depth = self.depth.max(command.depth() + 1);
        if weight > 65_536 {
            return Ok(Err(Cause::Weight));
        }
        if depth > 200 {
            return Ok(Err(Cause::Depth));
        }
        self.items.push(command.share()?)?;
        self.weight = weight;
        self.depth = depth;
        Ok(Ok(()))
    }

    /// The list of the commands.
    pub(crate) fn into_list(self, alloc: Global) -> Result<Shared, Memory>
        ensures { IfOk result (λ v. v ≡ list (datas_of self)) }
    {
        let list = Shared::list(alloc, self.items)?;
        Ok(list.unwrap())
    }
}
