//! The core: the least set of groups that covers the same pairs. Each function here says a law and does nothing.
ghost use Rattle.coverage.specs.CoreLaws.{CoreCovers, CoreIsLeast, CoreHasList, CoreFitsOrNot};
ghost use Rattle.coverage.specs.Counts.{CountDecidesFit};

/// The core covers the same pairs in every window as the whole set.
pub fn core_covers_the_same()
    ensures { CoreCovers }
{}

/// Each set of groups that covers the same pairs holds every core group.
pub fn core_is_least()
    ensures { CoreIsLeast }
{}

/// The core groups of a description that keeps the rules stand in some ascending list.
pub fn a_core_has_a_list()
    ensures { CoreHasList }
{}

/// The core of a description that keeps the rules fits a capacity, or it does not.
pub fn a_core_fits_or_not()
    ensures { CoreFitsOrNot }
{}

/// A core of k groups fits a capacity exactly where k is not above it.
pub fn count_decides_fit()
    ensures { CountDecidesFit }
{}
