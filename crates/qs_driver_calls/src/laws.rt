// Laws: functions that do nothing, for what their clauses say.
ghost use Rattle.qs_driver_calls.specs.Laws.{CallsInPlainWords, CountsAreBounds};

/// Of each call of `calls`: where it ends with `Done`, the source and its proof file were read, main's
/// entry bounds the calls of each of its runs, and the bound at the arguments was put; and where no
/// device failed and memory was found, each source whose calls its file counts has its bound, and
/// each refusal comes exactly where its cause is.
pub fn calls_in_plain_words()
    ensures { CallsInPlainWords }
{}

/// Of each call of `calls` to which the bound is due, also where a stream fails within it: for every
/// cost of calls main's entry bounds what the calls of each run cost, and the bound, if it is a
/// number, is at least the number of calls of each run with these arguments.
pub fn counts_are_bounds()
    ensures { CountsAreBounds }
{}
