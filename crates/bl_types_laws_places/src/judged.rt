//! The laws of expressions and of declarations.

ghost use Rattle.bl_types_laws_places.specs.Laws.{ArgumentsAgree, DeclarationsAgree, ExpressionsAgree};

/// In environments that agree, expressions and targets are judged alike.
pub fn expressions_agree()
    ensures { ExpressionsAgree }
{}

/// In environments that agree, arguments of calls are judged alike.
pub fn arguments_agree()
    ensures { ArgumentsAgree }
{}

/// In environments that agree, declarations are judged alike, and what is known after them agrees.
pub fn declarations_agree()
    ensures { DeclarationsAgree }
{}
