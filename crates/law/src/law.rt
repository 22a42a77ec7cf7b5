// The law of the pair by itself.
ghost use Rattle.law.specs.Law.{SumsStand};

// States that the three sums stand after every run.
pub fn sums_stand()
    ensures { SumsStand }
{}
