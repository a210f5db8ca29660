//! What is proved of passing certificates of the three verdicts.
ghost use Rattle.bz_pass.specs.Laws.{LeavesBoundBoxes, LeavesCoverBoxes, PartsHaveAPoint, PassingIsInfeasible, PassingIsOptimal, PassingIsUnbounded, PointsOfRaysAreFeasible, RootHasAllPoints, TreesBoundCosts, ValidCutsHold};

/// Each point of the parts of a passing certificate of an optimum is optimal in the model itself, which knows no parts,
/// and the certificate states its objective.
pub fn passing_is_optimal()
    ensures { PassingIsOptimal }
{}

/// A model with valid cuts and a tree of empty leaves that holds is infeasible.
pub fn passing_is_infeasible()
    ensures { PassingIsInfeasible }
{}

/// A model with a feasible point and a ray along which the inner cost falls without end is unbounded.
pub fn passing_is_unbounded()
    ensures { PassingIsUnbounded }
{}

/// Each point of the parts of such a certificate is feasible.
pub fn points_of_rays_are_feasible()
    ensures { PointsOfRaysAreFeasible }
{}

/// Parts with the shape of the model's are those of some point.
pub fn parts_have_a_point()
    ensures { PartsHaveAPoint }
{}

/// A valid cut holds at every feasible point of the model, with its block's inner cost there as its eta.
pub fn valid_cuts_hold()
    ensures { ValidCutsHold }
{}

/// A leaf bounds the inner cost of every feasible point in its box, which may be any box.
pub fn leaves_bound_their_boxes()
    ensures { LeavesBoundBoxes }
{}

/// Every feasible point of the model lies in the root's box.
pub fn root_box_has_all_points()
    ensures { RootHasAllPoints }
{}

/// Each feasible point in a box lies in the box of some leaf of each tree over it.
pub fn leaves_cover_boxes()
    ensures { LeavesCoverBoxes }
{}

/// A tree that holds, with leaves that are empty or have a great enough bound, bounds the inner cost of the whole model.
pub fn trees_bound_costs()
    ensures { TreesBoundCosts }
{}
