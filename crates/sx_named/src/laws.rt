// What the definitions come to.
ghost use Rattle.std.specs.Prelude.{List};
ghost use Rattle.sx_named.specs.Laws.{IsOneTree};
ghost use Rattle.sx_names.specs.Numbering.{NameTable};
ghost use Rattle.sx_tree.specs.declared.events.Event.{Event};

/// There is one tree: that of events with their names written out is that of the events with its names written out.
pub fn one_tree()
    ensures { (names : NameTable) (events : List Event) → IsOneTree names events }
{}
