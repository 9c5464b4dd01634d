//! What holds of all trees.
ghost use Rattle.std.specs.Prelude.{◌≡◌, ◌++◌, List, Some, None, Ok};
ghost use Rattle.qk_base.specs.declared.place.Place.{Place};
ghost use Rattle.qk_core.specs.Definitions.{ModelData};
ghost use Rattle.qk_core.specs.ExprData.{ExprData};
ghost use Rattle.qk_core.specs.GenData.{GenData};
ghost use Rattle.qk_core.specs.Program.{ProgramData};
ghost use Rattle.qk_core.specs.Properties.{BinderData, CheckData, MarkData};
ghost use Rattle.qk_syntax.specs.PlainTrees.{PlainTree, PlainTrees};
ghost use Rattle.qk_clauses.specs.Binders.{binders_at};
ghost use Rattle.qk_types.specs.Bodies.{bodies_of};
ghost use Rattle.qk_names.specs.Checks.{place_of};
ghost use Rattle.qk_clauses.specs.Clauses.{Clauses, no_clauses, clauses_at};
ghost use Rattle.qk_generators.specs.Drawing.{Drawn, drawn};
ghost use Rattle.qk_types.specs.Elaboration.{elaborated, type_fault};
ghost use Rattle.qk_expressions.specs.Expressions.{expression};
ghost use Rattle.qk_generators.specs.Generators.{generator};
ghost use Rattle.qk_headers.specs.Headers.{HeadersData, ModelTypesData, headers_of};
ghost use Rattle.qk_clauses.specs.Models.{model_at};
ghost use Rattle.qk_names.specs.Names.{Declared, names_of};
ghost use Rattle.qk_typing.specs.Operators.{Tables, Typed, typed};
ghost use Rattle.qk_headers.specs.Scopes.{Scope};
ghost use Rattle.qk_headers.specs.TypesOf.{type_at};
ghost use Rattle.qk_value.specs.Types.{TypeData};
ghost use Rattle.qk_wellformed.specs.AreBinders.{AreBinders};
ghost use Rattle.qk_wellformed.specs.AreClauses.{AreClauses};
ghost use Rattle.qk_wellformed.specs.AreHeaders.{AreHeaders};
ghost use Rattle.qk_wellformed.specs.AreNames.{AreNames};
ghost use Rattle.qk_wellformed.specs.IsExpression.{IsExpression};
ghost use Rattle.qk_wellformed.specs.IsGenerator.{IsGenerator};
ghost use Rattle.qk_wellformed.specs.IsModel.{IsModel};
ghost use Rattle.qk_wellformed.specs.IsType.{IsType};
ghost use Rattle.qk_wellformed.specs.StandsFor.{AreBodies, StandsFor};

/// A tree is judged to be a type exactly where it is that type.
pub fn types_stand()
    ensures judged { (names : List Declared) (tree : PlainTree) (t : TypeData) → IsType names tree t → type_at names tree ≡ Ok t }
    ensures stands { (names : List Declared) (tree : PlainTree) (t : TypeData) → type_at names tree ≡ Ok t → IsType names tree t }
{}

/// A tree is judged to be an expression of a type exactly where it is that expression; it is one at most.
pub fn expressions_stand()
    ensures judged { (d : Tables) (s : Scope) (tree : PlainTree) (t : TypeData) (e : ExprData) → IsExpression d s tree t e → expression d s tree ≡ Ok (typed (place_of tree) t e) }
    ensures stands { (d : Tables) (s : Scope) (tree : PlainTree) (r : Typed) → expression d s tree ≡ Ok r → IsExpression d s tree r.ty r.expr }
    ensures one { (d : Tables) (s : Scope) (tree : PlainTree) (t u : TypeData) (e f : ExprData) → IsExpression d s tree t e → IsExpression d s tree u f → (t ≡ u) × (e ≡ f) }
{}

/// A tree is judged to be a generator of values of a type exactly where it is that generator; it is one at most.
pub fn generators_stand()
    ensures judged { (d : Tables) (s : Scope) (tree : PlainTree) (t : TypeData) (g : GenData) → IsGenerator d s tree t g → generator d s tree ≡ Ok (drawn (place_of tree) t g) }
    ensures stands { (d : Tables) (s : Scope) (tree : PlainTree) (r : Drawn) → generator d s tree ≡ Ok r → IsGenerator d s tree r.ty r.gen }
    ensures one { (d : Tables) (s : Scope) (tree : PlainTree) (t u : TypeData) (g f : GenData) → IsGenerator d s tree t g → IsGenerator d s tree u f → (t ≡ u) × (g ≡ f) }
{}

/// Items are judged to declare names exactly where they declare these.
pub fn names_stand()
    ensures judged { (trees : PlainTrees) (names : List Declared) → AreNames trees names → names_of trees ≡ Ok names }
    ensures stands { (trees : PlainTrees) (names : List Declared) → names_of trees ≡ Ok names → AreNames trees names }
{}

/// The headers of items are judged to say exactly what they say.
pub fn headers_stand()
    ensures judged { (names : List Declared) (trees : PlainTrees) (headers : HeadersData) → AreHeaders names trees headers → headers_of names trees ≡ Ok headers }
    ensures stands { (names : List Declared) (trees : PlainTrees) (headers : HeadersData) → headers_of names trees ≡ Ok headers → AreHeaders names trees headers }
{}

/// The parts of a model of some types are judged to be exactly what they are.
pub fn models_stand()
    ensures judged { (d : Tables) (p : Place) (m : ModelTypesData) (parts : PlainTrees) (model : ModelData) → IsModel d m parts model → model_at d p m parts ≡ Ok model }
    ensures stands { (d : Tables) (p : Place) (m : ModelTypesData) (parts : PlainTrees) (model : ModelData) → model_at d p m parts ≡ Ok model → IsModel d m parts model }
{}

/// The binders of a property, after those before them, are judged to be exactly what they are.
pub fn binders_stand()
    ensures judged { (d : Tables) (before binders : List BinderData) (trees : PlainTrees) → AreBinders d before trees binders → binders_at d before trees ≡ Ok (before ++ binders) }
    ensures stands { (d : Tables) (before all : List BinderData) (trees : PlainTrees) → binders_at d before trees ≡ Ok all → (binders : List BinderData) × (all ≡ before ++ binders) × AreBinders d before trees binders }
{}

/// The clauses of a property are judged to be exactly what they are.
pub fn clauses_stand()
    ensures judged { (d : Tables) (binders : List BinderData) (trees : PlainTrees) (givens : List ExprData) (what : CheckData) (marks : List MarkData) → AreClauses d binders trees givens what marks → clauses_at d binders no_clauses trees ≡ Ok (record { givens = givens; check = Some what; marks = marks }) }
    ensures stands { (d : Tables) (binders : List BinderData) (trees : PlainTrees) (clauses : Clauses) (what : CheckData) → clauses_at d binders no_clauses trees ≡ Ok clauses → clauses.check ≡ Some what → AreClauses d binders trees clauses.givens what clauses.marks }
{}

/// The bodies of items are judged to be exactly what they are.
pub fn bodies_stand()
    ensures judged { (d : Tables) (trees : PlainTrees) (core : ProgramData) → AreBodies d trees core → bodies_of d trees ≡ Ok core }
    ensures stands { (d : Tables) (trees : PlainTrees) (core : ProgramData) → bodies_of d trees ≡ Ok core → AreBodies d trees core }
{}

/// Trees are judged to be a program exactly where they stand for it; it is one at most, and there is a first fault exactly where
/// there is none.
pub fn programs_stand()
    ensures judged { (trees : PlainTrees) (core : ProgramData) → StandsFor trees core → elaborated trees ≡ Ok core }
    ensures stands { (trees : PlainTrees) (core : ProgramData) → elaborated trees ≡ Ok core → StandsFor trees core }
    ensures one { (trees : PlainTrees) (core other : ProgramData) → StandsFor trees core → StandsFor trees other → core ≡ other }
    ensures faultless { (trees : PlainTrees) → type_fault trees ≡ None → (core : ProgramData) × StandsFor trees core }
    ensures faulty { (trees : PlainTrees) (core : ProgramData) → StandsFor trees core → type_fault trees ≡ None }
{}
