//! The laws of new descriptions and of every change. Each function here says a law and does nothing.
ghost use Rattle.coverage.specs.ChangeLaws.{NewIsLawful, NewAreAlike, NewExists, ChangeKeepsRules, ChangeKeepsAlike, ChangeExists, JoinExists, ForgetExists, OneResult};

/// A new description keeps the rules, where its number of positions is one that a description can have.
pub fn new_is_lawful()
    ensures { NewIsLawful }
{}

/// A change that is allowed keeps the rules.
pub fn change_keeps_rules()
    ensures { ChangeKeepsRules }
{}

/// Two new descriptions of the same number of positions are alike.
pub fn new_are_alike()
    ensures { NewAreAlike }
{}

/// A change takes alike descriptions to alike descriptions.
pub fn change_keeps_alike()
    ensures { ChangeKeepsAlike }
{}

/// There is a new description of any number of positions.
pub fn there_is_a_new_description()
    ensures { NewExists }
{}

/// A change of a description that keeps the rules has a result.
pub fn a_change_has_a_result()
    ensures { ChangeExists }
{}

/// A join of any description with any marks and groups has a result.
pub fn a_join_has_a_result()
    ensures { JoinExists }
{}

/// A forget of any positions of any description has a result.
pub fn a_forget_has_a_result()
    ensures { ForgetExists }
{}

/// Two new descriptions of the same number of positions are one, and so are two results of the same change.
pub fn results_are_unique()
    ensures { OneResult }
{}
