// Laws of orders: functions that do nothing, for what their clauses say.
ghost use Rattle.qs_callgraph.specs.Laws.{OneDepthFirst, OrdersExcludeCycles};
ghost use Rattle.qs_callgraph.specs.Laws.{OrdersExcludeRecursion};

/// Functions have an order or a cycle, and never both: so each is answered only where it is there.
pub fn orders_exclude_cycles()
    ensures { OrdersExcludeCycles }
{}

/// Where no function has a specification, an order shows that the unit is without recursion.
pub fn orders_exclude_recursion()
    ensures { OrdersExcludeRecursion }
{}

/// The order that is answered is the only one of a depth first search.
pub fn one_depth_first()
    ensures { OneDepthFirst }
{}
