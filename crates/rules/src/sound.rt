// A new control state is sound, and every request keeps it so.
ghost use Rattle.rules.specs.Sound.{StateSound};

pub fn state_sound<V>()
    ensures { StateSound V }
{}
