// Puts the lines of costs. Nothing here takes memory.
ghost use Rattle.qs_ports.specs.SinkView.{PutsOn};
ghost use Rattle.qs_driver_session.specs.Lines.{record_line, cost_lines};

use qs_image::FunctionRecord;
use qs_ports::{Sink, SinkFault};
use qs_report::put_cost;

fn put_record<K: Sink>(out: &mut K, function: &FunctionRecord) -> Result<(), SinkFault>
    ensures { PutsOn K.view out.old out.new (record_line function.now) result }
{
    put_cost(out, function.name.bytes(), function.cost)
}

/// Puts the cost of each function. It fails where the sink does.
pub fn put_costs<K: Sink>(out: &mut K, functions: &[FunctionRecord]) -> Result<(), SinkFault>
    ensures { PutsOn K.view out.old out.new (cost_lines functions.now) result }
{
    for function in functions {
        put_record(out, function)?;
    }
    Ok(())
}
