//! How the changes act on coverage. Each function here says a law and does nothing.
ghost use Rattle.coverage.specs.BindLaws.{BindCoverage, BoundCoverage, RestWindow};
ghost use Rattle.coverage.specs.JoinForgetLaws.{JoinCoverage, ForgetCoverage};

/// What the new groups of a bind cover is said by what was covered before, and by the case.
pub fn bind_covers_by_coverage()
    ensures { BindCoverage }
{}

/// So is what a bind makes of a description.
pub fn bound_covers_by_coverage()
    ensures { BoundCoverage }
{}

/// What the groups apart from both sides cover in a window is what is covered in the window without both masks.
pub fn rest_has_a_window()
    ensures { RestWindow }
{}

/// A join covers what the description covered, and what the list covers.
pub fn join_covers_the_union()
    ensures { JoinCoverage }
{}

/// What is covered after a forget is said by what was covered before.
pub fn forget_covers_by_coverage()
    ensures { ForgetCoverage }
{}
