ghost use Rattle.vub_inflight.specs.Law.{CutRingGoesOn};

/// Law: a ring that is cut after any of its calls goes on. It serves again exactly the entries that were taken and not
/// published, in the order of taking, and takes next the first that was not taken. Over any number of cuts no entry is
/// published twice.
pub fn cut_ring_goes_on()
    ensures { CutRingGoesOn }
{}
