// What the two numbers that tell a thread's ownership records say.
ghost use Rattle.rules.specs.Shown.{OwnershipShown, ReadersShown};

pub fn ownership_shown()
    ensures { OwnershipShown }
{}

pub fn readers_shown()
    ensures { ReadersShown }
{}
