//! What a program defines: functions, generators and models.

use crate::expr::Expr;
use crate::gen_expr::GenExpr;
use qk_base::Seq;
use qk_value::Ty;
use std::marker::Model;

/// A function. The environment of its body is its arguments.
#[derive(Drop)]
pub struct Function {
    pub params: Seq<Ty>,
    pub result: Ty,
    pub body: Expr,
}

impl Model for Function {
    ghost use Rattle.std.specs.Prelude.{map};
    ghost use Rattle.qk_core.specs.Definitions.{FunctionData, function_code};

    ghost Value = { FunctionData };

    ghost coded = { function_code };

    ghost use Rattle.qk_value.specs.View.{view_type};
    ghost use Rattle.qk_core.specs.ExprView.{view_expr};

    ghost view = { λ f. record { params = map view_type f.params.items; result = view_type f.result; body = view_expr f.body } };
}

/// A generator that the program names. The environment of its body is its arguments.
#[derive(Drop)]
pub struct UserGen {
    pub params: Seq<Ty>,
    pub result: Ty,
    pub body: GenExpr,
}

impl Model for UserGen {
    ghost use Rattle.std.specs.Prelude.{map};
    ghost use Rattle.qk_core.specs.Definitions.{UserGenData, user_gen_code};

    ghost Value = { UserGenData };

    ghost coded = { user_gen_code };

    ghost use Rattle.qk_value.specs.View.{view_type};
    ghost use Rattle.qk_core.specs.GenView.{view_gen};

    ghost view = { λ g. record { params = map view_type g.params.items; result = view_type g.result; body = view_gen g.body } };
}

/// A model for command lists. `maker` is the generator of a command from an abstract state; `pre`, `next`, `step` and `post` are
/// functions, by number.
#[derive(Drop)]
pub struct ModelDef {
    pub command: Ty,
    pub maker: u32,
    pub abstract_ty: Ty,
    pub init: Expr,
    pub pre: u32,
    pub next: u32,
    pub system_ty: Ty,
    pub start: Expr,
    pub step: u32,
    pub post: u32,
}

impl Model for ModelDef {
    ghost use Rattle.qk_core.specs.Definitions.{ModelData, model_code};

    ghost Value = { ModelData };

    ghost coded = { model_code };

    ghost use Rattle.qk_value.specs.View.{view_type};
    ghost use Rattle.qk_core.specs.ExprView.{view_expr};

    ghost view = { λ m. record { command = view_type m.command; maker = m.maker; abstract_ty = view_type m.abstract_ty; init = view_expr m.init; pre = m.pre; next = m.next; system_ty = view_type m.system_ty; start = view_expr m.start; step = m.step; post = m.post } };
}
