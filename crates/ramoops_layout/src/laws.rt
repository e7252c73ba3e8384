// What holds of every layout.
ghost use Rattle.ramoops_layout.specs.Layouts.{LayoutsAreWhole};

/// The zones of every layout are valid, follow one another from 0 on without overlap or gap, and end within the memory.
pub fn layouts_are_whole()
    ensures { LayoutsAreWhole }
{}
