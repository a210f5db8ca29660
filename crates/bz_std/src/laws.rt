//! What is proved of the programs of a split.
ghost use Rattle.bz_std.specs.Laws.{AnswersCross, CutsAreOfBases, CutsAreValid, FloorsHaveOneEnd, LeavesAreRight, LowestFormsMeet, NodesNeverFall, OneLowestForm, PointsAreDecided, SeparationsCutOff, TasksArePosed};
ghost use Rattle.bz_std.specs.Told.{NodesAreTold, OnePosed};

/// What an answer says of the columns of a program, it says of the variables that they stand for.
pub fn answers_cross()
    ensures { AnswersCross }
{}

/// Multipliers that leave no variable and a right side below 0 show that a program has no point; a least rise above 0
/// shows it too, and one of 0 comes with a point. No point rises less than a least rise, or costs less than a least
/// cost.
pub fn points_are_decided()
    ensures { PointsAreDecided }
{}

/// The cuts that the multipliers of a separation or a floor make are valid.
pub fn made_cuts_are_valid()
    ensures { CutsAreValid }
{}

/// Where a point of the master can't be completed in a block, the separation's cut cuts it off.
pub fn separations_cut_off()
    ensures { SeparationsCutOff }
{}

/// The leaf that a node's multipliers make holds over its box and cuts.
pub fn made_leaves_hold()
    ensures { LeavesAreRight }
{}

/// The rows and the cost of each of the three programs speak of its variables.
pub fn tasks_are_posed()
    ensures { TasksArePosed }
{}

/// A block's cost falls along a direction that no inequality forbids, or multipliers of its inequalities balance it,
/// and never both. A floor's program always has a point.
pub fn floors_have_one_end()
    ensures { FloorsHaveOneEnd }
{}

/// Where each block has a floor among the cuts, a node's cost falls along no direction.
pub fn nodes_never_fall()
    ensures { NodesNeverFall }
{}

/// The cut that an answer of a separation names is that of its basis, which has one at most, whatever the point.
pub fn cuts_are_of_bases()
    ensures { CutsAreOfBases }
{}

/// A point that meets a separation or a node meets it in its lowest form too, inequality by inequality.
pub fn lowest_forms_meet()
    ensures { LowestFormsMeet }
{}

/// Numbers over a positive denominator have exactly one lowest form.
pub fn one_lowest_form()
    ensures { OneLowestForm }
{}

/// A program over columns stands for one program over variables at most.
pub fn one_posed()
    ensures { OnePosed }
{}

/// Two nodes with the same program have the same leaves, the same points and, where there is a block, the same mode.
pub fn programs_tell_nodes()
    ensures { NodesAreTold }
{}
