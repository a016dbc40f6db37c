//! A law that no single function says.

ghost use Rattle.image_charts.specs.Told.{AuthorsAreTold};

/// A state that the author of a text wrote is told exactly where a state of the chart is active that stands for it: of
/// a chart the state itself. This function does nothing; its contract is the law.
pub fn authors_are_told()
    ensures { AuthorsAreTold }
{}
