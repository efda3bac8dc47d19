//! Shortcuts that give something else than the rules. Each function here says so of one, and does nothing.
ghost use Rattle.worked.specs.Shortcuts.{MinimalIsTooFew, RuleOfParts, SharersAreNotLinear, CountingDiffers, OmittingGroundDiffers};

/// A group in which a smaller one lies may be a core group.
pub fn minimal_groups_are_too_few()
    ensures { MinimalIsTooFew }
{}

/// The bind rule with two parts left open is the rule where they are the rule's own.
pub fn parts_make_the_rule()
    ensures { RuleOfParts }
{}

/// A term whose positions are linear and stand once each need not be linear, since they may share.
pub fn sharers_are_not_linear()
    ensures { SharersAreNotLinear }
{}

/// A term that is called linear by counting alone: other groups and marks come out.
pub fn counting_differs()
    ensures { CountingDiffers }
{}

/// A position that turned ground is linear again: without that, other marks come out.
pub fn omitting_ground_differs()
    ensures { OmittingGroundDiffers }
{}
