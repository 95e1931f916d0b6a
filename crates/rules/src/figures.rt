// The definitions give the figures that they are known to give.
ghost use Rattle.rules.specs.Figures.{Figures};

pub fn figures_hold()
    ensures { Figures }
{}
