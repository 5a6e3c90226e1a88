// What the definitions come to.
ghost use Rattle.std.specs.Prelude.{List};
ghost use Rattle.sx_axes.specs.Growth.{AxesGrow};
ghost use Rattle.sx_axes.specs.Order.{HasSameNodes, IsInOrder, ordered};
ghost use Rattle.sx_tree.specs.declared.nodes.Node.{Node};

/// More events only add nodes behind those of the axes that go inward or outward, and none where their end is Done.
pub fn growth()
    ensures { AxesGrow }
{}

/// What is put into document order is in order, each node before all that follow it, and it is the same nodes.
pub fn order()
    ensures in_order { (ns : List Node) → IsInOrder (ordered ns) }
    ensures same { (ns : List Node) → HasSameNodes (ordered ns) ns }
{}
