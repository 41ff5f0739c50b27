ghost use Rattle.vub_driver.specs.Law.{DriverUnderstands};
ghost use Rattle.vub_driver.specs.Stores.{SubmitsAreStores};

/// Law: a driver and a device understand each other. Over every list of submits, collects, takes and puts, in which
/// each entry is put before the next take, and the ring may be set up anew at its numbers between two entries: an entry
/// that is taken has the request and the room of the next accepted submit; what is collected are the replies that were
/// put, in order, each once, and all of them where a collect finds nothing; no collect is refused; and the first
/// accepted submit, and the first one after each take that found nothing, asks for a signal, so that no kick is lost
/// with EVENT_IDX either.
pub fn driver_understands()
    ensures { DriverUnderstands }
{}

/// Law: in a memory of one region, a submit is four stores of the guest into the content behind it: the bytes of the
/// request, its two descriptors, its slot, and the index last. So a guest that makes these stores has submitted.
pub fn submits_are_stores()
    ensures { SubmitsAreStores }
{}
