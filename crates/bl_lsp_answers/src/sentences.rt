//! What is said of a rule that fails (docs/LANGUAGE.md, "Rules").

ghost use Rattle.std.specs.Prelude.{◌≡◌};
ghost use Rattle.bl_lsp_answers.specs.Sentences.{further_of, sentence_of};

use bl_tree::Rule;

/// The rule's name and a sentence.
pub fn sentence(rule: Rule) -> &'static str
    ensures { result.now ≡ sentence_of rule }
{
    match rule {
        Rule::Size => "Size: the text has more than 1,048,576 bytes.",
        Rule::Lex => "Lex: no token, blank or comment begins here, or the comment isn't closed.",
        Rule::Profile => "Profile: this token is left out of the profile.",
        Rule::Depth =>
            "Depth: more than 100 blocks are open here, or more than 200 operators and brackets in one run.",
        Rule::Syntax => "Syntax: the tokens up to here begin no program.",
        Rule::Duplicate => "Duplicate: this name is declared twice in its scope.",
        Rule::Unknown => "Unknown: no declaration of this name is visible here.",
        Rule::Kind => "Kind: this name stands for another kind of thing than is needed here.",
        Rule::Type => "Type: this has another type than is needed here.",
        Rule::Literal => "Literal: this number isn't in the range of its type.",
        Rule::Immutable => "Immutable: this can't be written, since it is no var and no output.",
        Rule::Constant => "Constant: this has no constant value, or is no length from 1 to 65,536.",
        Rule::Arity => "Arity: this unit has another number of inputs or outputs.",
        Rule::Prev => "Prev: prev stands before a scalar var of an activity's body alone.",
        Rule::Return =>
            "Return: a return is missing here, has a value too many or too few, or can't stand here.",
        Rule::Where => "Where: a function can't pause, run an activity or branch.",
        Rule::Entry =>
            "Entry: a program has one entry point, an activity with scalar parameters and no result.",
        Rule::Pause => "Pause: this activity may end in the tick in which it begins.",
        Rule::Conflict =>
            "Conflict: this and a statement in another branch write the same variable.",
        Rule::Alias => "Alias: this output or target overlaps another argument.",
        Rule::Instant => "Instant: the body of this loop may end in the tick in which it begins.",
        Rule::Twice => "Twice: this may act twice in one tick.",
        Rule::Cycle => "Cycle: branches wait for each other, beginning with this.",
        Rule::Frames =>
            "Frames: the entry has more than 4,096 instances, or units call each other more than 100 deep.",
        Rule::Cells =>
            "Cells: the state has more than 1,000,000 cells, or a type is nested deeper than 100.",
    }
}

/// What is said at a further place of the rule.
pub fn further(rule: Rule) -> &'static str
    ensures { result.now ≡ further_of rule }
{
    match rule {
        Rule::Duplicate => "declared here before",
        Rule::Kind | Rule::Immutable => "declared here",
        Rule::Conflict => "the other statement, or the variable's declaration",
        Rule::Alias => "the argument that it overlaps",
        Rule::Twice | Rule::Cycle => "next on the walk",
        _ => "see here",
    }
}
