//! Peeled bodies. None of these functions does anything: the contract is the law.

ghost use Rattle.bl_peel_laws_typing.specs.Typing.{FitsAsksNoBodies, PeeledFits, PeeledIsApart, PeeledIsShallow, PeeledReturns};

/// The statements of a peeled body fit where those of the body do, and those of any body beside callees that are peeled.
pub fn peeled_bodies_fit()
    ensures body { PeeledFits }
    ensures callees { FitsAsksNoBodies }
{}

/// An activity with its body peeled returns as the activity does.
pub fn peeled_activities_return()
    ensures { PeeledReturns }
{}

/// The blocks of a peeled body nest at most twice as deep as those of the body, and its branches keep apart where those of the body do.
pub fn peeled_bodies_keep_shape()
    ensures shallow { PeeledIsShallow }
    ensures apart { PeeledIsApart }
{}
