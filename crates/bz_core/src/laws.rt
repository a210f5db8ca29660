//! What is proved of searches.
ghost use Rattle.bz_core.specs.Laws.{TasksAreThere};

/// A search that isn't done has a task: so where `Idle` is answered, some task is handed out.
pub fn tasks_are_there()
    ensures { TasksAreThere }
{}
