// The laws of thinning.
ghost use Rattle.links.specs.Thinned.{Thinning};

// States the laws that hold of every list of frames and what it may be thinned to, for those who build on links.
pub fn thinning_laws()
    ensures { Thinning }
{}
