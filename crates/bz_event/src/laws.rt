//! What is proved of what makers promise.
ghost use Rattle.bz_event.specs.Laws.{RaysFallInTheModel};

/// Along the direction of a floor's answer every feasible point of the model stays feasible, and the inner cost falls.
pub fn rays_fall_in_the_model()
    ensures { RaysFallInTheModel }
{}
