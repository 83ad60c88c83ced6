// Laws: functions that do nothing, for what their clauses say.
ghost use Rattle.qs_entail.specs.Laws.{RootIsANode};
ghost use Rattle.qs_entail.specs.Meaning.{IsSound};

/// A certificate without a fault shows that under the
/// hypotheses P is at least Q, for all costs and in each state.
pub fn certificates_are_sound()
    ensures { IsSound }
{}

/// The root of a certificate is a node like the others: where the hypotheses pass no limit, the
/// verdict is the first fault under what they push.
pub fn the_root_is_a_node()
    ensures { RootIsANode }
{}
