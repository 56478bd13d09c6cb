//! Laws of what is made of named trees, each the contract of a function that does nothing.

ghost use Rattle.std.specs.Prelude.{◌≡◌, List, true, false, [], ◌++◌, Option, Some, length, map};
ghost use Rattle.std.specs.List.{list_all};
ghost use Rattle.bl_tree.specs.declared.place.Place.{Place as TextPlace};
ghost use Rattle.bl_tree.specs.declared.tree.Expr.{Expr};
ghost use Rattle.bl_tree.specs.declared.tree.Field.{Field};
ghost use Rattle.bl_tree.specs.declared.tree.Path.{Path};
ghost use Rattle.bl_tree.specs.declared.tree.StructDef.{StructDef};
ghost use Rattle.bl_tree.specs.declared.tree.Ty.{Ty};
ghost use Rattle.bl_tree.specs.declared.tree.Var.{Var};
ghost use Rattle.bl_tree.specs.Types.{type_stands};
ghost use Rattle.bl_tree.specs.Typing.{TypingContext, fits, is_assignable, type_of};
ghost use Rattle.bl_names_tree.specs.declared.expr.NamedExpr.{NamedExpr};
ghost use Rattle.bl_names_tree.specs.declared.expr.NamedTarget.{NamedTarget, out-NamedTarget};
ghost use Rattle.bl_names_tree.specs.declared.stmt.NamedPath.{NamedPath};
ghost use Rattle.bl_names_tree.specs.declared.item.NamedConstant.{NamedConstant};
ghost use Rattle.bl_names_tree.specs.declared.item.NamedStruct.{NamedStruct};
ghost use Rattle.bl_names_tree.specs.declared.item.NamedUnit.{NamedUnit};
ghost use Rattle.bl_names_tree.specs.declared.item.NamedVar.{NamedVar};
ghost use Rattle.bl_names_tree.specs.declared.stmt.NamedStmt.{NamedStmt};
ghost use Rattle.bl_names_tree.specs.declared.types.NamedType.{NamedType};
ghost use Rattle.bl_names_tree.specs.Placed.{DeclaredBefore, constant_placed, expr_placed, in_turn, path_placed, stmt_step, struct_placed, target_placed};
ghost use Rattle.bl_names_tree.specs.Placed.{type_placed, unit_step};
ghost use Rattle.bl_types.specs.declared.environment.Constant.{Constant};
ghost use Rattle.bl_types.specs.declared.environment.Environment.{Environment};
ghost use Rattle.bl_types.specs.declared.form.Found.TheVariants.{Place};
ghost use Rattle.bl_types.specs.Declarations.{after_constant, after_struct, constant_of, initial, struct_of};
ghost use Rattle.bl_types.specs.Expressions.{in_context, judged, targeted};
ghost use Rattle.bl_types.specs.Statements.{all_lent, immutable, lent, paths_failures, walked_block, walked_stmt};
ghost use Rattle.bl_types.specs.Units.{after_unit, entries, entry_among};
ghost use Rattle.bl_types.specs.Written.{bad_lengths, written_type};
ghost use Rattle.bl_types_laws.specs.Fitting.{AllLent, FormFits, FoundFits, InitialFits, IsLent, SettledFits};
ghost use Rattle.bl_types_laws.specs.Standing.{Around, BetweenUnits, BlockPassed, FieldsStand, IsDriven, Known, PartPassed, UnitPassed, stmt_named, unit_named};
ghost use Rattle.bl_types_laws.specs.Within.{ConstantStands, EnvironmentWithin, calls_functions, known_in, target_calls};

/// An expression in which no rule on types fails is open or has a type, and the type that is wanted of it where one is;
/// a target leads to what is there. Its positions are of what is known, and its calls name functions.
pub fn expressions_fit()
    ensures expressions { (env : Environment) (site : TypingContext) → EnvironmentWithin env site → (e : NamedExpr) → expr_placed (known_in env) e ≡ true →
        calls_functions env.units e ≡ true → (judged env e).failures ≡ [] → FormFits site (judged env e).form }
    ensures targets { (env : Environment) (site : TypingContext) → EnvironmentWithin env site → (target : NamedTarget) → target_placed (known_in env) target ≡ true →
        target_calls env.units target ≡ true → (targeted env target).failures ≡ [] → FoundFits site (targeted env target).found }
    ensures wanted { (env : Environment) (site : TypingContext) → EnvironmentWithin env site → (e : NamedExpr) → expr_placed (known_in env) e ≡ true →
        calls_functions env.units e ≡ true → (ty : Ty) → SettledFits site ty (in_context (Some ty) (judged env e)) }
{}

/// A path that stands for an output or takes a result has the type that is wanted of it, and goes by fields alone from a root
/// that may be changed; so does each of the paths for the outputs of a unit. What a target leads to may be changed where its root may.
pub fn paths_fit()
    ensures one { (env : Environment) (site : TypingContext) → EnvironmentWithin env site → (path : NamedPath) → path_placed (known_in env) path ≡ true → (ty : Ty) →
        (lent env (Some ty) path).failures ≡ [] → IsLent site ty (lent env (Some ty) path).made }
    ensures all { (env : Environment) (site : TypingContext) → EnvironmentWithin env site → (paths : List NamedPath) (params : List Var) →
        list_all (path_placed (known_in env)) paths ≡ true → length paths ≡ length params → paths_failures (all_lent env paths params) ≡ [] →
        AllLent site params (all_lent env paths params) }
    ensures assigned { (env : Environment) (site : TypingContext) → EnvironmentWithin env site → (target : NamedTarget) (path : Path) →
        target_placed (known_in env) target ≡ true →
        (targeted env target).found ≡ Place path → immutable env (out-NamedTarget target).place (out-NamedTarget target).root ≡ [] →
        is_assignable site path ≡ true }
{}

/// An initial value in which no rule fails has a type, and is made with it; a constant in which none fails has a scalar type, and
/// its number is one of that type.
pub fn declarations_fit()
    ensures initial { (env : Environment) (site : TypingContext) → EnvironmentWithin env site → (ty : Option NamedType) (e : NamedExpr) →
        expr_placed (known_in env) e ≡ true →
        calls_functions env.units e ≡ true → (initial env ty e).failures ≡ [] → InitialFits site (initial env ty e).valued }
    ensures constant { (env : Environment) (site : TypingContext) → EnvironmentWithin env site → (constant : NamedConstant) →
        expr_placed (known_in env) constant.value ≡ true →
        calls_functions env.units constant.value ≡ true → (after_constant constant env).failures ≡ [] →
        ConstantStands (constant_of constant.value (initial env constant.ty constant.value).valued) }
{}

/// Where no rule fails in a statement, as many variables and constants are known after it as are counted, and what is made of it fits the
/// site whose variables are those that are known after it. So it is with each of the statements of a block.
pub fn statements_fit()
    ensures one { (constants : List NamedConstant) (vars : List NamedVar) (site : TypingContext) (s : NamedStmt) →
        stmt_named constants vars site.earlier s ≡ true →
        (env : Environment) → Around env site → Known env → (counts : DeclaredBefore) → stmt_step vars constants s (known_in env) ≡ Some counts →
        (walked_stmt constants vars s env).failures ≡ [] → PartPassed false site (fits site) env counts (walked_stmt constants vars s env) }
    ensures all { (constants : List NamedConstant) (vars : List NamedVar) (site : TypingContext) (body : List NamedStmt) →
        list_all (stmt_named constants vars site.earlier) body ≡ true → (env : Environment) → Around env site → Known env → (counts : DeclaredBefore) →
        in_turn (map (stmt_step vars constants) body) (known_in env) ≡ Some counts → (walked_block constants vars body env).failures ≡ [] →
        BlockPassed site (fits site) false env counts (walked_block constants vars body env) }
{}

/// Where no rule fails in a unit, each statement of the unit with its types fits: it sees the units before its own, and the structs of
/// the whole program, of which those that are known are the first. Its variables have types that stand, and names and roles as they
/// are named; it returns as its result asks. Where rule Entry doesn't fail, the entry is a unit that the environment can drive.
pub fn units_fit()
    ensures one { (constants : List NamedConstant) (unit : NamedUnit) (env : Environment) (structs later : List StructDef) →
        structs ≡ env.structs ++ later → BetweenUnits env → unit_named constants env.units unit ≡ true → (counts : DeclaredBefore) →
        unit_step constants unit (known_in env) ≡ Some counts →
        (after_unit constants unit env).failures ≡ [] → UnitPassed structs unit env counts (after_unit constants unit env).env }
    ensures entry { (end : TextPlace) (units : List NamedUnit) → entries false end units ≡ [] → IsDriven units (entry_among units 0) }
{}

/// A written type none of whose lengths fails names structs that are declared before it, and its lengths are from 1 to 65536; so do the
/// types of the fields of a struct, and the type of an expression, where those of fields and variables do.
pub fn types_stand()
    ensures written { (earlier : DeclaredBefore) (constants : List Constant) (ty : NamedType) → type_placed earlier ty ≡ true →
        bad_lengths constants ty ≡ [] →
        type_stands earlier.structs (written_type constants ty) ≡ true }
    ensures fields { (def : NamedStruct) (env : Environment) → struct_placed (known_in env) def ≡ true → (after_struct def env).failures ≡ [] →
        list_all (λ (field : Field). type_stands (length env.structs) field.ty) (struct_of env def).fields ≡ true }
    ensures typed { (site : TypingContext) → FieldsStand site.structs → list_all (λ (var : Var). type_stands (length site.structs) var.ty) site.vars ≡ true →
        (e : Expr) (ty : Ty) → type_of site e ≡ Some ty → type_stands (length site.structs) ty ≡ true }
{}

/// What is known between units is so after a struct and after a constant in which no rule fails, as it is after a unit.
pub fn items_fit()
    ensures structure { (def : NamedStruct) (env : Environment) → BetweenUnits env → struct_placed (known_in env) def ≡ true →
        (after_struct def env).failures ≡ [] → BetweenUnits (after_struct def env).env }
    ensures constant { (constant : NamedConstant) (env : Environment) → BetweenUnits env → constant_placed (known_in env) constant ≡ true →
        calls_functions env.units constant.value ≡ true → (after_constant constant env).failures ≡ [] → BetweenUnits (after_constant constant env).env }
{}
