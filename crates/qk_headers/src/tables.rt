//! What headers say, and what bodies see of it.

use qk_base::{Bytes, Place, Seq};
use qk_core::Expr;
use qk_names::Names;
use qk_value::{Kinds, Ty};
use std::marker::Model;

/// A variable with its type.
#[derive(Drop)]
pub struct Variable {
    pub name: Bytes,
    pub ty: Ty,
}

impl Model for Variable {
    ghost use Rattle.qk_value.specs.View.{view_type};
    ghost use Rattle.qk_headers.specs.Scopes.{VariableData, variable_code};

    ghost Value = { VariableData };

    ghost coded = { variable_code };

    ghost view = { λ v. record { name = v.name.items; ty = view_type v.ty } };
}

/// What a function or a generator takes and gives.
#[derive(Drop)]
pub struct Signature {
    pub params: Seq<Variable>,
    pub result: Ty,
}

impl Model for Signature {
    ghost use Rattle.qk_value.specs.View.{view_type};
    ghost use Rattle.qk_headers.specs.Headers.{SignatureData, signature_code};

    ghost Value = { SignatureData };

    ghost coded = { signature_code };

    ghost view = { λ s. record { params = s.params.items; result = view_type s.result } };
}

/// The types of a model: of its commands, of its abstract states and of the system's states.
#[derive(Drop)]
pub struct ModelTypes {
    pub command: Ty,
    pub abstract_ty: Ty,
    pub system_ty: Ty,
}

impl Model for ModelTypes {
    ghost use Rattle.qk_value.specs.View.{view_type};
    ghost use Rattle.qk_headers.specs.Headers.{ModelTypesData, model_types_code};

    ghost Value = { ModelTypesData };

    ghost coded = { model_types_code };

    ghost view = { λ m. record { command = view_type m.command; abstract_ty = view_type m.abstract_ty; system_ty = view_type m.system_ty } };
}

/// What is declared, by number.
#[derive(Drop)]
pub struct Headers {
    pub kinds: Kinds,
    pub functions: Seq<Signature>,
    pub generators: Seq<Signature>,
    pub models: Seq<ModelTypes>,
}

impl Model for Headers {
    ghost use Rattle.qk_headers.specs.Headers.{HeadersData, headers_code};

    ghost Value = { HeadersData };

    ghost coded = { headers_code };

    ghost view = { λ h. record { kinds = h.kinds; functions = h.functions.items; generators = h.generators.items; models = h.models.items } };
}

/// What bodies see: the declared names, and what their headers say.
#[derive(Drop)]
pub struct Tables {
    pub names: Names,
    pub headers: Headers,
}

/// An expression with its type and its place.
#[derive(Drop)]
pub struct Typed {
    pub place: Place,
    pub ty: Ty,
    pub expr: Expr,
}
