//! The points of a property as a family.
ghost use Rattle.std.specs.Prelude.{◌≡◌, length, unwrap_or, IfOk};
ghost use Rattle.qk_base.specs.declared.outcome.Cause.TheVariants as causes;
ghost use Rattle.qk_base.specs.Judged.{cause_of as cause_of_verdict};
ghost use Rattle.qk_property.specs.Points.{cause_at, IsSmallPoint};
ghost use Rattle.qk_property.specs.Spreads.{count_kept, listed_of};

use crate::point::Point;
use qk_base::{Cause, Family, Memory, Verdict};
use qk_command::judge_shared;
use qk_core::{Core, Property};
use qk_eval::{Shared, copied};
use qk_shrink::Spread;
use std::alloc::Global;

/// The points of a property: its candidates are those of the values of its binders, and it fails where judging its values with so many
/// units of fuel fails, or where its drawing crashed. A point whose drawing crashed has no candidates.
#[derive(Drop)]
pub struct PropertyFamily<'c> {
    core: &'c Core,
    property: &'c Property,
    fuel: u32,
}

/// The candidates of a point, none where its drawing crashed.
#[derive(Drop)]
pub struct PointSpread<'c> {
    values: Vec<Shared>,
    spread: Option<Spread<'c>>,
    ghost counted: { count_kept spread ≡ length (listed_of spread values.items) },
}

impl<'c> PropertyFamily<'c> {
    /// The points of a property of a program.
    pub fn make(core: &'c Core, property: &'c Property, fuel: u32) -> PropertyFamily<'c>
        ensures core { result.core.now ≡ core.now }
        ensures property { result.property.now ≡ property.now }
        ensures fuel { result.fuel ≡ fuel }
    {
        PropertyFamily {
            core,
            property,
            fuel,
        }
    }

    /// Why a point fails, if it does.
    pub fn cause(&self, alloc: Global, point: &Point) -> Result<Option<Cause>, Memory>
        requires { IsSmallPoint point.now }
        ensures { IfOk result (λ cause. cause ≡ cause_at self.now.core.now self.now.property.now self.now.fuel point.now) }
    {
        if let Some(cause) = point.crash {
            return Ok(Some(cause));
        }
        let outcome = judge_shared(alloc, self.core, self.property, &point.values, self.fuel)?;
        Ok(cause_of(outcome.verdict))
    }
}

/// Why a point fails; `False` where it does not fail.
pub fn cause_of_point(
    alloc: Global,
    core: &Core,
    property: &Property,
    fuel: u32,
    point: &Point,
) -> Result<Cause, Memory>
    requires { IsSmallPoint point.now }
    ensures { IfOk result (λ cause. cause ≡ unwrap_or (cause_at core.now property.now fuel point.now) causes.False) }
{
    let family = PropertyFamily::make(core, property, fuel);
    Ok(family.cause(alloc, point)?.unwrap_or(Cause::False))
}

fn cause_of(verdict: Verdict) -> Option<Cause>
    ensures { result ≡ cause_of_verdict verdict }
{
    match verdict {
        Verdict::Pass => None,
        Verdict::Discard => None,
        Verdict::Fail(cause) => Some(cause),
    }
}

impl<'c> Family for PropertyFamily<'c> {
    ghost use Rattle.qk_property.specs.Points.{children_at, fails_at};
    ghost use Rattle.qk_property.specs.PointLaws.{children_are_small};

    type Point = Point;

    type Spread = PointSpread<'c>;

    ghost owns = { λ family. IsSmallPoint };

    ghost children = { λ family. children_at family.core.now family.property.now family.fuel };

    ghost failing = { λ family. fails_at family.core.now family.property.now family.fuel };

    ghost listed = { λ family spread. listed_of spread.spread spread.values.items };

    fn spread(&self, alloc: Global, point: &Point) -> Result<PointSpread<'c>, Memory> {
        let values = copied(alloc, &point.values)?;
        let property = self.property;
        match point.crash {
            Some(_) => Ok(PointSpread {
                values,
                spread: None,
            }),
            None => {
                let spread = Spread::make_shared(
                    alloc,
                    self.core,
                    &property.binders,
                    &values,
                    self.fuel,
                )?;
                Ok(PointSpread {
                    values,
                    spread: Some(spread),
                })
            }
        }
    }

    fn count(&self, spread: &PointSpread<'c>) -> u64 {
        match &spread.spread {
            None => 0,
            Some(candidates) => candidates.count(),
        }
    }

    fn child(&self, alloc: Global, spread: &PointSpread<'c>, k: u64) -> Result<Point, Memory> {
        match &spread.spread {
            None => unreachable!(),
            Some(candidates) => Ok(Point {
                values: candidates.candidate_shared(alloc, &spread.values, k)?,
                crash: None,
            }),
        }
    }

    fn fails(&self, alloc: Global, point: &Point) -> Result<bool, Memory> {
        Ok(self.cause(alloc, point)?.is_some())
    }

    ghost children_are_owned = { λ family point owned. children_are_small family.core.now family.property.now family.fuel point owned };
}
