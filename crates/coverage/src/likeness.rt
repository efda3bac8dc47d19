//! What alike descriptions have in common. Each function here says a law and does nothing.
ghost use Rattle.coverage.specs.CoreLaws.{AlikeHaveOneCore, OneCoreIsAlike, AlikeFitAlike};
ghost use Rattle.coverage.specs.Counts.{AlikeCountAlike};
ghost use Rattle.coverage.specs.Likeness.{Equivalence, AlikeAnswerAlike};

/// Likeness is an equivalence.
pub fn alike_is_an_equivalence()
    ensures { Equivalence }
{}

/// Alike descriptions give the same answers to all questions.
pub fn alike_answer_alike()
    ensures { AlikeAnswerAlike }
{}

/// Alike descriptions have the same core groups.
pub fn alike_have_one_core()
    ensures { AlikeHaveOneCore }
{}

/// Descriptions with the same core groups, positions and marks are alike.
pub fn one_core_is_alike()
    ensures { OneCoreIsAlike }
{}

/// Whether the core fits a capacity is the same for alike descriptions.
pub fn alike_fit_alike()
    ensures { AlikeFitAlike }
{}

/// The cores of alike descriptions have the same number of groups.
pub fn alike_count_alike()
    ensures { AlikeCountAlike }
{}
