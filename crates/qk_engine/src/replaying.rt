//! The answer to a replay token.
ghost use Rattle.std.specs.Prelude.{◌≡◌, ◌≤◌, IfOk, OnOk, Some, slice_get};
ghost use Rattle.qk_engine.specs.Replay.{TokenReply, bad_token, no_property, point_of, point_reply, property_reply};
ghost use Rattle.qk_property.specs.Points.{IsSmallPoint};

use qk_base::{Bytes, Cause, Memory, Seq, Status};
use qk_core::{Core, Property};
use qk_file::Made;
use qk_property::{Point, cause_of_point, replay};
use qk_report::{Failure, Token, put, put_replayed_block};
use std::alloc::Global;

/// The values that a token leads to in a program, or its refusal.
pub fn token_reply(alloc: Global, core: &Core, token: &Token) -> Result<Made, Memory>
    requires { token.now.size ≤ 1000 }
    ensures { IfOk result (λ made. TokenReply token.now core.now made.status made.text.items) }
{
    if token.property < core.properties() {
        let property = core.property(token.property);
        property_token_reply(alloc, core, property, token)
    } else {
        refused_token(alloc, "refused 41\n")
    }
}

fn property_token_reply(
    alloc: Global,
    core: &Core,
    property: &Property,
    token: &Token,
) -> Result<Made, Memory>
    requires { token.now.size ≤ 1000 }
    ensures { IfOk result (λ made. property_reply core.now token.now (Some property.now) made.status made.text.items) }
{
    match replay(
        alloc,
        core,
        property,
        token.seed,
        token.fuel,
        token.attempt,
        token.size,
        token.path.as_slice(),
    )? {
        None => refused_token(alloc, "refused 40\n"),
        Some(point) => replayed_reply(alloc, core, property, token, point),
    }
}

/// The refusal of a token.
pub fn refused_token(alloc: Global, refusal: &str) -> Result<Made, Memory>
    ensures { IfOk result (λ made. (made.status ≡ Status.Usage) × (made.text.items ≡ refusal.now)) }
{
    let mut text = Bytes::make(alloc);
    put(&mut text, refusal)?;
    Ok(Made {
        status: Status::Usage,
        text,
    })
}

// The block of the values that a token leads to.
fn replayed_reply(
    alloc: Global,
    core: &Core,
    property: &Property,
    token: &Token,
    point: Point,
) -> Result<Made, Memory>
    requires { IsSmallPoint point }
    ensures { IfOk result (λ made. point_reply core.now property.now token.now (Some point) made.status made.text.items) }
{
    let cause = cause_of_point(alloc, core, property, token.fuel, &point)?;
    let values = point.plain_values(alloc)?;
    let failure = Failure {
        attempt: token.attempt,
        size: token.size,
        cause,
        drawing: point.crash.is_some(),
        values,
        path: path_of(alloc, token.path.as_slice())?,
        tried: None,
        limit_met: false,
        seed: token.seed,
        fuel: token.fuel,
    };
    let mut text = Bytes::make(alloc);
    put_replayed_block(
        alloc,
        &mut text,
        core.kinds(),
        token.property,
        property,
        &failure,
    )?;
    Ok(Made {
        status: Status::SomeFailed,
        text,
    })
}

fn path_of(alloc: Global, numbers: &[u64]) -> Result<Seq<u64>, Memory>
    ensures { IfOk result (λ path. path.items ≡ numbers.now) }
{
    let mut path = Seq::make(alloc);
    path.append(numbers)?;
    Ok(path)
}
