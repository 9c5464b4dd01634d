//! The patterns of a type, and what the cases of a match have come to.
ghost use Rattle.std.specs.Prelude.{◌≡◌, [], ◌∷◌, Ok, Err, OnOk, IfOk, IfErr, map, option_map, find, length};
ghost use Rattle.std.specs.Option.{option_copied};
ghost use Rattle.std.specs.Str.{bytes_eq};
ghost use Rattle.qk_syntax.specs.Refusals.{IfRefusal};
ghost use Rattle.qk_syntax.specs.View.{view, views};
ghost use Rattle.qk_expressions.specs.CaseSteps.{headed_shape as headed_shape_of, pattern_shape as pattern_shape_of, variables_in as variables_in_tree, added};
ghost use Rattle.qk_headers.specs.Headers.{no_headers};
ghost use Rattle.qk_names.specs.NameTable.{names_in};
ghost use Rattle.qk_expressions.specs.Patterns.{shapes_of as shapes_of_type, makers_of as makers_of_kind, maker_shapes as shapes_of_makers, shape_at as shape_at_head, pattern_variables as variables_of_trees, no_cases, agrees as agrees_with, with_case as one_more_case, are_complete as are_complete_for};
ghost use Rattle.qk_expressions.specs.CasesView.{shape_in, cases_in};
ghost use Rattle.qk_typing.specs.PartsView.{words_in};
ghost use Rattle.qk_typing.specs.TablesView.{typed_in};
ghost use Rattle.qk_core.specs.declared.expr.Pattern.TheVariants as patterns;
ghost use Rattle.qk_value.specs.Types.{list_type, pair_type};
ghost use Rattle.qk_value.specs.View.{view_type};

use qk_base::{Bytes, Fault, Memory, Place, Seq};
use qk_core::{Case, Pattern};
use qk_headers::{Headers, Typed};
use qk_names::{
    DOUBLED_CASE, Names, UNKNOWN_FORM, UNKNOWN_NAME, WRONG_COUNT, WRONG_TYPE, both, refusal,
};
use qk_syntax::{Node, Tree};
use qk_typing::{copied, has_type, is_among, is_known, list_of, variable_at};
use qk_value::{Maker, Ty};
use std::alloc::Global;

/// A pattern: its head, and the types of its variables.
#[derive(Drop)]
pub struct Shape {
    pub head: Bytes,
    pub pattern: Pattern,
    pub fields: Seq<Ty>,
}

/// The cases before: the type of their bodies, their heads, and what they are.
#[derive(Drop)]
pub struct Cases {
    pub ty: Option<Ty>,
    pub heads: Seq<Bytes>,
    pub cases: Seq<Case>,
}

/// The patterns of a type; numbers and truth values have none.
pub fn shapes_of(alloc: Global, headers: &Headers, ty: &Ty) -> Result<Seq<Shape>, Memory>
    ensures { IfOk result (λ ss. map shape_in ss.items ≡ shapes_of_type headers.now (view_type ty.now)) }
{
    match ty {
        Ty::Int | Ty::Bool => Ok(Seq::make(alloc)),
        Ty::List(item) => list_shapes(alloc, item),
        Ty::Pair(first, second) => pair_shapes(alloc, first, second),
        Ty::Made(kind) => maker_shapes(alloc, *kind, makers_of(headers, *kind)),
    }
}

fn list_shapes(alloc: Global, item: &Ty) -> Result<Seq<Shape>, Memory>
    ensures { IfOk result (λ ss. map shape_in ss.items ≡ shapes_of_type no_headers (list_type (view_type item.now))) }
{
    let none = Seq::make(alloc);
    let nil = shape_of(alloc, b"nil", Pattern::Nil, none)?;
    let rest = list_of(alloc, item)?;
    let fields = both(alloc, item.copy(alloc)?, rest)?;
    let cons = shape_of(alloc, b"cons", Pattern::Cons, fields)?;
    both(alloc, nil, cons)
}

fn pair_shapes(alloc: Global, first: &Ty, second: &Ty) -> Result<Seq<Shape>, Memory>
    ensures { IfOk result (λ ss. map shape_in ss.items ≡ shapes_of_type no_headers (pair_type (view_type first.now) (view_type second.now))) }
{
    let first = first.copy(alloc)?;
    let fields = both(alloc, first, second.copy(alloc)?)?;
    let pair = shape_of(alloc, b"pair", Pattern::Pair, fields)?;
    let mut shapes = Seq::make(alloc);
    shapes.add(pair)?;
    Ok(shapes)
}

fn shape_of(alloc: Global, head: &[u8], pattern: Pattern, fields: Seq<Ty>) -> Result<Shape, Memory>
    ensures { IfOk result (λ s. shape_in s ≡ record { head = head.now; pattern = pattern; fields = map view_type fields.items }) }
{
    let head = copied(alloc, head)?;
    Ok(Shape {
        head,
        pattern,
        fields,
    })
}

/// The makers of a user type.
fn makers_of(headers: &Headers, kind: u32) -> &[Maker]
    ensures { result.now ≡ makers_of_kind headers.now kind }
{
    match headers.kinds.kinds.get(kind as usize) {
        None => &[],
        Some(kind) => kind.makers.as_slice(),
    }
}

fn maker_shapes(alloc: Global, kind: u32, makers: &[Maker]) -> Result<Seq<Shape>, Memory>
    ensures { IfOk result (λ ss. map shape_in ss.items ≡ shapes_of_makers kind 0 makers.now) }
{
    // So many makers have no room in memory.
    if makers.len() > u32::MAX as usize {
        return Err(Memory);
    }
    let mut shapes = Seq::make(alloc);
    for (number, maker) in makers.iter().enumerate() {
        shapes.add(maker_shape(alloc, kind, number as u32, maker)?)?;
    }
    Ok(shapes)
}

fn maker_shape(alloc: Global, kind: u32, number: u32, maker: &Maker) -> Result<Shape, Memory>
    ensures { IfOk result (λ s. shape_in s ≡ record { head = maker.now.name; pattern = patterns.Maker kind number; fields = maker.now.fields }) }
{
    let pattern = Pattern::Maker {
        kind,
        maker: number,
    };
    let fields = copies(alloc, maker.fields.as_slice())?;
    shape_of(alloc, maker.name.as_slice(), pattern, fields)
}

fn copies(alloc: Global, types: &[Ty]) -> Result<Seq<Ty>, Memory>
    ensures { IfOk result (λ ts. map view_type ts.items ≡ map view_type types.now) }
{
    let mut out = Seq::make(alloc);
    for ty in types {
        out.add(ty.copy(alloc)?)?;
    }
    Ok(out)
}

/// The pattern that a part of a case at this place is, if no case before has it.
pub fn pattern_shape<'a>(
    names: &Names,
    shapes: &'a [Shape],
    before: &Cases,
    place: Place,
    pattern: &Tree,
) -> Result<&'a Shape, Fault>
    ensures ok { IfOk result (λ s. pattern_shape_of (names_in names.now) (map shape_in shapes.now) (cases_in before.now) place (view pattern.now) ≡ Ok (shape_in s.now)) }
    ensures refused { IfErr result (λ e. IfRefusal e (λ r. pattern_shape_of (names_in names.now) (map shape_in shapes.now) (cases_in before.now) place (view pattern.now) ≡ Err r)) }
{
    let Node::List(parts) = &pattern.node else {
        return Err(refusal(UNKNOWN_FORM, place));
    };
    let [head, variables @ ..] = parts.as_slice() else {
        return Err(refusal(UNKNOWN_FORM, place));
    };
    let Node::Name(word) = &head.node else {
        return Err(refusal(UNKNOWN_FORM, place));
    };
    headed_shape(
        names,
        shapes,
        before,
        pattern.place,
        head.place,
        word.as_slice(),
        variables,
    )
}

fn headed_shape<'a>(
    names: &Names,
    shapes: &'a [Shape],
    before: &Cases,
    place: Place,
    at: Place,
    word: &[u8],
    variables: &[Tree],
) -> Result<&'a Shape, Fault>
    ensures ok { IfOk result (λ s. headed_shape_of (names_in names.now) (map shape_in shapes.now) (cases_in before.now) place at word.now (views variables.now) ≡ Ok (shape_in s.now)) }
    ensures refused { IfErr result (λ e. IfRefusal e (λ r. headed_shape_of (names_in names.now) (map shape_in shapes.now) (cases_in before.now) place at word.now (views variables.now) ≡ Err r)) }
{
    let shape = shape_at(names, shapes, place, at, word)?;
    if variables.len() != shape.fields.len() {
        return Err(refusal(WRONG_COUNT, place));
    }
    if is_among(before.heads.as_slice(), word) {
        return Err(refusal(DOUBLED_CASE, place));
    }
    Ok(shape)
}

fn shape_at<'a>(
    names: &Names,
    shapes: &'a [Shape],
    place: Place,
    at: Place,
    word: &[u8],
) -> Result<&'a Shape, Fault>
    ensures ok { IfOk result (λ s. shape_at_head (names_in names.now) (map shape_in shapes.now) place at word.now ≡ Ok (shape_in s.now)) }
    ensures refused { IfErr result (λ e. IfRefusal e (λ r. shape_at_head (names_in names.now) (map shape_in shapes.now) place at word.now ≡ Err r)) }
{
    match headed_by(shapes, word) {
        Some(shape) => Ok(shape),
        None => {
            if is_known(names, word) {
                Err(refusal(WRONG_TYPE, place))
            } else {
                Err(refusal(UNKNOWN_NAME, at))
            }
        }
    }
}

fn headed_by<'a>(shapes: &'a [Shape], word: &[u8]) -> Option<&'a Shape>
    ensures { option_map shape_in (option_copied result) ≡ find (λ s. bytes_eq word.now s.head) (map shape_in shapes.now) }
{
    for shape in shapes {
        if word == shape.head.as_slice() {
            return Some(shape);
        }
    }
    None
}

/// The variables after the head of a pattern.
pub fn variables_in(alloc: Global, pattern: &Tree) -> Result<Seq<Bytes>, Fault>
    ensures ok { IfOk result (λ ws. variables_in_tree (view pattern.now) ≡ Ok (words_in ws.items)) }
    ensures refused { IfErr result (λ e. IfRefusal e (λ r. variables_in_tree (view pattern.now) ≡ Err r)) }
{
    let Node::List(parts) = &pattern.node else {
        return Ok(Seq::make(alloc));
    };
    let [_, variables @ ..] = parts.as_slice() else {
        return Ok(Seq::make(alloc));
    };
    pattern_variables(alloc, variables)
}

fn pattern_variables(alloc: Global, trees: &[Tree]) -> Result<Seq<Bytes>, Fault>
    ensures ok { IfOk result (λ ws. variables_of_trees [] (views trees.now) ≡ Ok (words_in ws.items)) }
    ensures refused { IfErr result (λ e. IfRefusal e (λ r. variables_of_trees [] (views trees.now) ≡ Err r)) }
{
    let mut words = Seq::make(alloc);
    for tree in trees {
        words.add(variable_at(alloc, words.as_slice(), tree)?)?;
    }
    Ok(words)
}

impl Cases {
    /// No case.
    pub fn none(alloc: Global) -> Cases
        ensures { cases_in result ≡ no_cases }
    {
        Cases {
            ty: None,
            heads: Seq::make(alloc),
            cases: Seq::make(alloc),
        }
    }

    /// Adds a case, whose body must have the type of the first body.
    pub fn add(&mut self, alloc: Global, shape: &Shape, body: Typed) -> Result<(), Fault>
        ensures ok { OnOk result (added (cases_in self.old) (shape_in shape.now) (typed_in body) ≡ Ok (cases_in self.new)) }
        ensures refused { IfErr result (λ e. IfRefusal e (λ r. added (cases_in self.old) (shape_in shape.now) (typed_in body) ≡ Err r)) }
    {
        self.agrees(&body)?;
        Ok(self.add_agreeing(alloc, shape, body)?)
    }

    fn agrees(&self, body: &Typed) -> Result<(), Fault>
        ensures ok { OnOk result (agrees_with (cases_in self.now) (typed_in body.now) ≡ Ok tt) }
        ensures refused { IfErr result (λ e. IfRefusal e (λ r. agrees_with (cases_in self.now) (typed_in body.now) ≡ Err r)) }
    {
        match &self.ty {
            None => Ok(()),
            Some(ty) => has_type(ty, body),
        }
    }

    fn add_agreeing(&mut self, alloc: Global, shape: &Shape, body: Typed) -> Result<(), Memory>
        ensures { OnOk result (cases_in self.new ≡ one_more_case (cases_in self.old) (shape_in shape.now) (typed_in body)) }
    {
        self.heads.add(copied(alloc, shape.head.as_slice())?)?;
        let Typed { ty, expr, .. } = body;
        self.cases.add(Case {
            pattern: shape.pattern,
            body: expr,
        })?;
        if self.ty.is_none() {
            self.ty = Some(ty);
        }
        Ok(())
    }

    /// Whether each pattern has a case.
    pub fn are_complete(&self, shapes: &[Shape]) -> bool
        ensures { result ≡ are_complete_for (map shape_in shapes.now) (cases_in self.now) }
    {
        for shape in shapes {
            if !is_among(self.heads.as_slice(), shape.head.as_slice()) {
                return false;
            }
        }
        true
    }
}
