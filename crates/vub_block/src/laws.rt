ghost use Rattle.vub_block.specs.Law.{RefusalsChangeNothing};

/// Law: a request whose status isn't Ok gives no byte and leaves the disk as it was. All tests are made before anything
/// is done.
pub fn refusals_change_nothing()
    ensures { RefusalsChangeNothing }
{}
